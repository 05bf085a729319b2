// The starts of a least test: every cable of a code, seen from each of its ends, against the code's first record.
ghost use Rattle.std.specs.Prelude.{◌≡◌, true, false, ◌/◌, ◌≤◌, ◌<◌, length};
ghost use Rattle.laws.specs.Rows.{row};
ghost use Rattle.codes.specs.Code.{decoded, code_records, rec_in};
ghost use Rattle.codes.specs.BranchState.{first_state};
ghost use Rattle.codes.specs.Twins.{TwinsNoted};
ghost use Rattle.code_records.specs.Records.{as_rec};
ghost use Rattle.least_seen.specs.Betters.{BetterBelow, FirstBetter, SeenCable, reversed_record, FirstStart, FirstOfStarts};
ghost use Rattle.least_seen.specs.Accepting.{TestCounts, TestGoesOn};
ghost use Rattle.least_test.specs.StartNumbers.{NumbersLabels};

use code_records::record::Record;
use least_branches::better::first_better;
use records::drawing::Drawing;
use std::cmp::Ordering;
use tables::table::CELLS;

// The labels of a record as one number that rises as they do: kind of i, cable kind, kind of j.
pub fn labels_number(r: Record) -> u32
    ensures { NumbersLabels (as_rec r) result }
{
    65536 * u32::from(r.ki) + (256 * u32::from(r.c) + u32::from(r.kj))
}

// A cable seen from its other end.
pub fn reversed(cable: Record) -> Record
    ensures { as_rec result ≡ reversed_record (as_rec cable) }
{
    Record {
        i: cable.j,
        j: cable.i,
        ki: cable.kj,
        c: cable.c,
        kj: cable.ki,
    }
}

// Of the branch that begins with device u as 0 and device w as 1: the first of the first m records before which it sees another, or m. A record
// with a number of at most `enough` need not be the first.
fn branch_first_better(
    table: &[u32; CELLS],
    twins: &[u8; Drawing::MOST_DEVICES],
    code: &[u8],
    m: usize,
    enough: usize,
    n: usize,
    u: usize,
    w: usize,
) -> usize
    requires { (u < 10) × (w < 10) × TestGoesOn table.now code.now m n 1 (first_state u w)
        × TwinsNoted table.now twins.now }
    ensures { FirstBetter code.now m enough 1 (first_state u w) result }
{
    let mut numbers = [0; Drawing::MOST_DEVICES];
    numbers[0] = u as u8;
    numbers[1] = w as u8;
    let mut used = [false; Drawing::MOST_DEVICES];
    used[u] = true;
    used[w] = true;
    let mut path = [0; Drawing::MOST_DEVICES];
    path[1] = 1;
    first_better(
        table,
        twins,
        code,
        m,
        enough,
        n,
        1,
        &mut numbers,
        &mut used,
        &mut path,
        2,
        2,
        0,
    )
}

// The first of the first m records of a code before which one that begins with a cable, seen from its i, has another, or m; the code's own first
// record has the labels `first`. The branch need not be followed where it is known to see nothing.
fn start_first_better(
    table: &[u32; CELLS],
    twins: &[u8; Drawing::MOST_DEVICES],
    code: &[u8],
    m: usize,
    enough: usize,
    n: usize,
    first: u32,
    cable: Record,
    follow: bool,
) -> usize
    requires { TestCounts table.now code.now m n × (1 ≤ m) × SeenCable (decoded (code_records code.now)) (as_rec cable)
        × NumbersLabels (rec_in (row 5 0 code.now)) first
        × (follow ≡ false → BetterBelow code.now m 1 (first_state cable.i cable.j) → ⊥)
        × TwinsNoted table.now twins.now }
    ensures { FirstStart code.now m enough cable.i cable.j cable.c result }
{
    match labels_number(cable).cmp(&first) {
        Ordering::Less => 0,
        Ordering::Equal if follow => branch_first_better(
            table,
            twins,
            code,
            m,
            enough,
            n,
            usize::from(cable.i),
            usize::from(cable.j),
        ),
        Ordering::Equal => m,
        Ordering::Greater => m,
    }
}

// Whether the start along record k is to be followed: that along record 0 is the code's own.
fn followed(own: bool, k: usize) -> bool
    ensures { result ≡ false → (own ≡ false) × (k ≡ 0) }
{
    own || k != 0
}

// The same of all starts: every cable of a code of m records, seen from each of its ends. `own` tells whether the code's own start is to be
// followed, from device 0 to device 1; where it is, it is the first, by which most codes that are not least are found out. n is any
// bound of the devices' number. What one start tells bounds the next ones.
pub fn first_of_starts(
    table: &[u32; CELLS],
    twins: &[u8; Drawing::MOST_DEVICES],
    code: &[u8],
    m: usize,
    enough: usize,
    n: usize,
    own: bool,
) -> usize
    requires { TestCounts table.now code.now m n × (m ≡ length code.now / 5)
        × (own ≡ false → BetterBelow code.now m 1 (first_state 0 1) → ⊥) × TwinsNoted table.now twins.now }
    ensures { FirstOfStarts (code_records code.now) m enough result }
{
    let first = labels_number(Record::at(code, 0));
    let mut bound = m;
    for k in 0..m {
        let cable = Record::at(code, k);
        bound = start_first_better(
            table,
            twins,
            code,
            bound,
            enough,
            n,
            first,
            cable,
            followed(own, k),
        );
        if bound <= enough {
            return bound;
        }
        bound = start_first_better(
            table,
            twins,
            code,
            bound,
            enough,
            n,
            first,
            reversed(cable),
            true,
        );
        if bound <= enough {
            return bound;
        }
    }
    bound
}
