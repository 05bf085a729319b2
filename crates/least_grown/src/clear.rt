// Codes that are clearly least: every other start has labels after those of the first record, and no forward record could have gone
// elsewhere. The records alone tell it, so that such a code needs no table of labels.
ghost use Rattle.std.specs.Prelude.{◌≡◌, true, ◌+◌, ◌*◌, ◌/◌, ◌≤◌, ◌<◌, length};
ghost use Rattle.laws.specs.Decides.{Decides};
ghost use Rattle.codes.specs.Code.{code_records, code_refusal};
ghost use Rattle.codes.specs.OwnNumbering.{WellGrown};
ghost use Rattle.code_records.specs.Records.{as_rec};
ghost use Rattle.least_seen.specs.Betters.{SomeStart};
ghost use Rattle.least_grown.specs.ClearlyLeast.{LabelsAfter, RecordAfter, StartsAfter, GoesAlike, AlikeSeen, PartsAgain, SomeParts};

use code_records::record::Record;
use least_test::starts::{labels_number, reversed};

// Whether the labels of a cable, seen from its i, come after those with the number `first`.
fn labels_after(first: u32, cable: Record) -> bool
    ensures { Decides result (LabelsAfter first (as_rec cable)) }
{
    first < labels_number(cable)
}

// Whether those of record k do, seen from either end; record 0, seen from its i, is the code's own start.
fn record_after(code: &[u8], first: u32, k: usize) -> bool
    requires { 5 * k + 5 ≤ length code.now }
    ensures { Decides result (RecordAfter code.now first k) }
{
    let cable = Record::at(code, k);
    labels_after(first, reversed(cable)) && (k == 0 || labels_after(first, cable))
}

// Whether those of all m records do.
fn starts_after(code: &[u8], m: usize, first: u32) -> bool
    requires { 5 * m ≤ length code.now }
    ensures { Decides result (StartsAfter code.now first m) }
{
    (0..m).all(|k| record_after(code, first, k))
}

// Whether a cable goes from the device i of a record along the record's label.
fn goes_alike(r: Record, cable: Record) -> bool
    ensures { Decides result (GoesAlike (as_rec r) (as_rec cable)) }
{
    cable.i == r.i && cable.c == r.c && cable.kj == r.kj
}

// Whether it does, seen from one of its ends.
fn alike_seen(r: Record, cable: Record) -> bool
    ensures { Decides result (AlikeSeen (as_rec r) (as_rec cable)) }
{
    goes_alike(r, cable) || goes_alike(r, reversed(cable))
}

// Whether record k goes forward and a later one of m goes like it.
fn parts_again(code: &[u8], m: usize, k: usize) -> bool
    requires { (5 * m ≤ length code.now) × (k < m) }
    ensures { Decides result (PartsAgain code.now m k) }
{
    let r = Record::at(code, k);
    r.i <= r.j && (k + 1..m).any(|t| alike_seen(r, Record::at(code, t)))
}

// Whether a record of m, but the first and the last, does; nothing follows the last.
fn some_parts(code: &[u8], m: usize) -> bool
    requires { (5 * m ≤ length code.now) × (1 ≤ m) }
    ensures { Decides result (SomeParts code.now m) }
{
    (1..m - 1).any(|k| parts_again(code, m, k))
}

// Whether an accepted code of m records that has grown well is clearly least. Where it is not, it may be least all the same.
pub fn clearly_least(code: &[u8], m: usize) -> bool
    requires { (code_refusal code.now ≡ 0) × (m ≡ length code.now / 5) × WellGrown (code_records code.now) }
    ensures { result ≡ true → SomeStart (code_records code.now) m → ⊥ }
{
    starts_after(code, m, labels_number(Record::at(code, 0))) && !some_parts(code, m)
}
