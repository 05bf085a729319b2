// The first record of a code before which a branch that follows it sees another: at each numbering of the code's first records it looks for one
// before the next. Numbers are given in place and taken back, so that no array is copied.
ghost use Rattle.codes.specs.Twins.{TwinsNoted};
ghost use Rattle.least_seen.specs.Betters.{FirstBetter};
ghost use Rattle.branches.specs.Branches.{in_place, SameArrays};
ghost use Rattle.least_seen.specs.Accepting.{TestGoesOn, GoesAhead};

use branches::branch::{device_at, give_number, take_number};
use least_seen::seen::{chord_order, counted_label, is_lower, place_of, some_before, wanted_label};
use records::code::Code;
use records::drawing::Drawing;
use std::cmp::Ordering;
use tables::table::CELLS;

// Of a branch that has followed the first t records: the first of the first m before which it, or one that it leads to, sees another; m if there
// is none. A record with a number of at most `enough` need not be the first. Each number given is taken back.
#[cycle(first_better_first_better_ahead)]
pub fn first_better(
    table: &[u32; CELLS],
    twins: &[u8; Drawing::MOST_DEVICES],
    code: &[u8],
    m: usize,
    enough: usize,
    n: usize,
    t: usize,
    numbers: &mut [u8; Drawing::MOST_DEVICES],
    used: &mut [bool; Drawing::MOST_DEVICES],
    path: &mut [u8; Drawing::MOST_DEVICES],
    count: usize,
    given: usize,
    low: usize,
) -> usize
    requires { TestGoesOn table.now code.now m n t (in_place numbers.old used.old path.old count given low)
        × TwinsNoted table.now twins.now }
    ensures { FirstBetter code.now m enough t
        (in_place numbers.old used.old path.old count given low) result
        × SameArrays numbers.old numbers.new used.old used.new
        path.old path.new }
{
    if t == m {
        return m;
    }
    let i = code[Code::RECORD_BYTES * t];
    let j = code[Code::RECORD_BYTES * t + 1];
    if i < j {
        return first_better_ahead(
            table, twins, code, m, enough, n, t, numbers, used, path, count, given, low,
        );
    }
    let q = place_of(path, count, j);
    match chord_order(table, numbers, path, count, low, q, wanted_label(code, t)) {
        Ordering::Less => t,
        Ordering::Equal => first_better(
            table,
            twins,
            code,
            m,
            enough,
            n,
            t + 1,
            numbers,
            used,
            path,
            count,
            given,
            usize::from(j) + 1,
        ),
        Ordering::Greater => m,
    }
}

// The same where record t is forward: each device without a number that has the record's label is a way to follow, but of
// exchangeable ones the first stands for all. What one way tells bounds the next ones.
#[cycle(first_better_first_better_ahead)]
fn first_better_ahead(
    table: &[u32; CELLS],
    twins: &[u8; Drawing::MOST_DEVICES],
    code: &[u8],
    m: usize,
    enough: usize,
    n: usize,
    t: usize,
    numbers: &mut [u8; Drawing::MOST_DEVICES],
    used: &mut [bool; Drawing::MOST_DEVICES],
    path: &mut [u8; Drawing::MOST_DEVICES],
    count: usize,
    given: usize,
    low: usize,
) -> usize
    requires { GoesAhead table.now code.now m n t (in_place numbers.old used.old path.old count given low)
        × TwinsNoted table.now twins.now }
    ensures { FirstBetter code.now m enough t
        (in_place numbers.old used.old path.old count given low) result
        × SameArrays numbers.old numbers.new used.old used.new
        path.old path.new }
{
    let wanted = wanted_label(code, t);
    let q = place_of(path, count, code[Code::RECORD_BYTES * t]);
    if some_before(table, numbers, used, path, count, low, n, q) {
        return t;
    }
    let from = device_at(numbers, path, q);
    let mut bound = m;
    for w in 0..n {
        let l = counted_label(table, twins, used, from, w);
        if is_lower(l, wanted) {
            return t;
        }
        if l == wanted {
            let was = give_number(numbers, used, path, given, q, w);
            bound = first_better(
                table,
                twins,
                code,
                bound,
                enough,
                n,
                t + 1,
                numbers,
                used,
                path,
                q + 2,
                given + 1,
                0,
            );
            take_number(numbers, used, path, given, q, w, was);
            if bound <= enough {
                return bound;
            }
        }
    }
    bound
}
