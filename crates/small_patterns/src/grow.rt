// Growing a code by every record that may come next: each code that is the least of a small pattern is written, and grown in its turn.
ghost use Rattle.std.specs.Prelude.{◌≡◌, ◌*◌, ◌≤◌, length, take};
ghost use Rattle.code_records.specs.Records.{as_rec};
ghost use Rattle.small_patterns.specs.SmallWalk.{SaysLeast, JoinsTwo, RecordTried, CanGrowSmall, SmallGrown, CanWalkSmall, SmallWalked};

use crate::next::{BookBounds, next_count, nth_record, widened, within};
use code_records::record::{Record, put_record};
use coding::least::is_least;
use entries::next::write_next;
use records::code::Code;
use records::entry::Entry;

// Whether the first records of a code are a least code. What is no code at all is turned back by the least test.
fn least_so_far(code: &[u8; Code::BYTES], records: usize) -> bool
    requires { (length code.now ≡ 100) × (records ≤ 8) }
    ensures { SaysLeast (take (5 * records) code.now) result }
{
    is_least(&code[..Code::RECORD_BYTES * records]).is_ok_and(|verdict| verdict.least)
}

// The code with a record more, in place: whether it is the least code of a small pattern.
fn try_record(bounds: BookBounds, code: &mut [u8; Code::BYTES], cables: usize, next: Record) -> bool
    requires { (length code.old ≡ 100) × (cables ≤ 7) × JoinsTwo (as_rec next) }
    ensures { RecordTried bounds code.old cables (as_rec next) result code.new }
{
    put_record(code, cables, next);
    if !within(bounds.devices, bounds.cables, next) {
        return false;
    }
    least_so_far(code, cables + 1)
}

// Writes the entry of a least code, and grows it up to the limit.
#[cycle(grow_small_walk_small)]
pub fn grow_small(
    bounds: BookBounds,
    code: &mut [u8; Code::BYTES],
    cables: usize,
    devices: usize,
    output: &mut [u8],
    count: usize,
) -> Option<usize>
    requires { CanGrowSmall bounds code.old cables devices output.old count }
    ensures { SmallGrown bounds code.old cables output.old count result code.new output.new }
{
    let head = Entry::new(cables, 0, 0);
    if !write_next(code, head, count, output) {
        return None;
    }
    if cables == bounds.limit {
        return Some(count + 1);
    }
    walk_small(bounds, code, cables, devices, output, count + 1)
}

// Grows a code by each record that may come next, in turn.
#[cycle(grow_small_walk_small)]
pub fn walk_small(
    bounds: BookBounds,
    code: &mut [u8; Code::BYTES],
    cables: usize,
    devices: usize,
    output: &mut [u8],
    count: usize,
) -> Option<usize>
    requires { CanWalkSmall bounds code.old cables devices output.old count }
    ensures { SmallWalked bounds code.old cables devices output.old count result code.new
        output.new }
{
    let most = next_count(devices);
    let mut written = count;
    for t in 0..most {
        let next = nth_record(devices, t);
        if try_record(bounds, code, cables, next) {
            let wider = widened(devices, next);
            written = grow_small(bounds, code, cables + 1, wider, output, written)?;
        }
    }
    Some(written)
}
