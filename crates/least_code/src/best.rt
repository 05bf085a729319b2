// The best code so far, in a lent array: its first `held` records.
ghost use Rattle.std.specs.Prelude.{◌≡◌, ◌≤◌, ◌<◌, length};
ghost use Rattle.codes.specs.Code.{recs_in};
ghost use Rattle.code_records.specs.Records.{as_rec};
ghost use Rattle.least_below.specs.Searches.{Against, chosen_rows};

use code_records::record::{Record, put_record};
use records::code::Code;
use std::cmp::Ordering;

// Where the next record comes against record t of the best code, which may have no more than t records yet.
pub(crate) fn order_at(best: &[u8; Code::BYTES], held: usize, t: usize, next: Record) -> Ordering
    requires { (t ≤ held) × (held ≤ 20) × (length best.now ≡ 100) }
    ensures { Against (recs_in t best.now) (recs_in held best.now) (as_rec next) result }
{
    if held <= t {
        return Ordering::Less;
    }
    next.order(Record::at(best, t))
}

// The best code to go on with: where the next record comes before it, it is cut to t records, and that one is its last.
pub(crate) fn choose_at(
    best: &mut [u8; Code::BYTES],
    held: usize,
    t: usize,
    next: Record,
    order: Ordering,
) -> usize
    requires { (t < 20) × (length best.old ≡ 100) }
    ensures { (recs_in result best.new
        ≡ chosen_rows order (recs_in t best.old) (as_rec next) (recs_in held best.old))
        × (length best.new ≡ 100) }
{
    let Ordering::Less = order else {
        return held;
    };
    put_record(best, t, next);
    t + 1
}
