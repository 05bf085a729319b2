// What a branch sees before the code's next record: a backward record, a forward one from above, a lower label. Nothing here changes
// the branch.
ghost use Rattle.std.specs.Prelude.{◌≡◌, ◌+◌, ◌*◌, ◌≤◌, ◌<◌, length, get_or};
ghost use Rattle.laws.specs.Decides.{Decides};
ghost use Rattle.laws.specs.Rows.{row};
ghost use Rattle.codes.specs.Code.{rec_in};
ghost use Rattle.codes.specs.Descending.{PathPlace};
ghost use Rattle.codes.specs.Twins.{TwinsNoted};
ghost use Rattle.branches.specs.Branches.{Places};
ghost use Rattle.least_seen.specs.Accepting.{MarksNumbered, ChordBelow, FreeLabel, CountedLabel, Lower, EdgeFrom, EdgeAbove, ChordTold, BeforeEdge, wanted_label};

use branches::branch::device_at;
use records::code::Code;
use records::drawing::Drawing;
use std::cmp::Ordering;
use tables::table::{CELLS, label, label_of};
use tables::twins::has_free_twin;

// The label of record t: what a table has where its cable is.
pub fn wanted_label(code: &[u8], t: usize) -> u32
    requires { 5 * t + 5 ≤ length code.now }
    ensures { (result ≡ wanted_label code.now t) × ((rec_in (row 5 t code.now)).kj < 256) }
{
    let at = Code::RECORD_BYTES * t;
    label_of(code[at + 3], code[at + 4])
}

// The place of the path that has a number.
pub fn place_of(path: &[u8; Drawing::MOST_DEVICES], count: usize, number: u8) -> usize
    requires { (count ≤ 10) × PathPlace count path.now number }
    ensures { (result < count) × (get_or path.now result 0 ≡ number) }
{
    path[..count].iter().position(|&p| p == number).unwrap()
}

// Whether the path's end has a cable to a place below `top` where a backward step may go.
fn some_chord(
    table: &[u32; CELLS],
    numbers: &[u8; Drawing::MOST_DEVICES],
    path: &[u8; Drawing::MOST_DEVICES],
    count: usize,
    low: usize,
    top: usize,
) -> bool
    requires { Places numbers.now path.now count × (top < count) }
    ensures { Decides result (ChordBelow table.now numbers.now path.now count low top) }
{
    let end = device_at(numbers, path, count - 1);
    (0..top).any(|q| {
        low <= usize::from(path[q]) && label(table, end, device_at(numbers, path, q)) != 0
    })
}

// The label from device u to device w if that has no number; else 0, as if no cable were there.
pub fn free_label(
    table: &[u32; CELLS],
    used: &[bool; Drawing::MOST_DEVICES],
    u: usize,
    w: usize,
) -> u32
    requires { (u < 10) × (w < 10) × (length used.now ≡ 10) }
    ensures { FreeLabel table.now used.now u w result }
{
    if used[w] { 0 } else { label(table, u, w) }
}

// The same, but 0 too if a twin below w has no number: of exchangeable devices without one the first counts.
pub fn counted_label(
    table: &[u32; CELLS],
    twins: &[u8; Drawing::MOST_DEVICES],
    used: &[bool; Drawing::MOST_DEVICES],
    u: usize,
    w: usize,
) -> u32
    requires { (u < 10) × (w < 10) × (length used.now ≡ 10) × TwinsNoted table.now twins.now }
    ensures { CountedLabel table.now used.now u w result }
{
    let l = free_label(table, used, u, w);
    if l != 0 && has_free_twin(twins, used, w) {
        0
    } else {
        l
    }
}

// Whether device u has a cable to a device that has no number.
fn some_edge(table: &[u32; CELLS], used: &[bool; Drawing::MOST_DEVICES], n: usize, u: usize) -> bool
    requires { (u < 10) × MarksNumbered used.now n }
    ensures { Decides result (EdgeFrom table.now used.now n u) }
{
    (0..n).any(|w| free_label(table, used, u, w) != 0)
}

// Whether a place above q has.
fn some_edge_above(
    table: &[u32; CELLS],
    numbers: &[u8; Drawing::MOST_DEVICES],
    used: &[bool; Drawing::MOST_DEVICES],
    path: &[u8; Drawing::MOST_DEVICES],
    count: usize,
    n: usize,
    q: usize,
) -> bool
    requires { (q < count) × Places numbers.now path.now count × MarksNumbered used.now n }
    ensures { Decides result (EdgeAbove table.now numbers.now used.now
        path.now count n q) }
{
    (q + 1..count).any(|p| some_edge(table, used, n, device_at(numbers, path, p)))
}

// Whether a cable is there with a label below the one wanted.
pub fn is_lower(l: u32, wanted: u32) -> bool
    ensures { Decides result (Lower l wanted) }
{
    l != 0 && l < wanted
}

// The backward record to place q along the label wanted, against the chords that are seen: something comes before it, it is
// the first itself, or nothing comes before it and it is not there.
pub fn chord_order(
    table: &[u32; CELLS],
    numbers: &[u8; Drawing::MOST_DEVICES],
    path: &[u8; Drawing::MOST_DEVICES],
    count: usize,
    low: usize,
    q: usize,
    wanted: u32,
) -> Ordering
    requires { Places numbers.now path.now count × (q < count) }
    ensures { ChordTold table.now numbers.now path.now count low q wanted result }
{
    if some_chord(table, numbers, path, count, low, q) {
        return Ordering::Less;
    }
    let end = device_at(numbers, path, count - 1);
    let l = label(table, end, device_at(numbers, path, q));
    if l == wanted {
        return Ordering::Equal;
    }
    if is_lower(l, wanted) {
        return Ordering::Less;
    }
    Ordering::Greater
}

// Whether anything comes before the forward records from place q: a backward record, or a forward one from above.
pub fn some_before(
    table: &[u32; CELLS],
    numbers: &[u8; Drawing::MOST_DEVICES],
    used: &[bool; Drawing::MOST_DEVICES],
    path: &[u8; Drawing::MOST_DEVICES],
    count: usize,
    low: usize,
    n: usize,
    q: usize,
) -> bool
    requires { (2 ≤ count) × (q < count) × Places numbers.now path.now count × MarksNumbered used.now n }
    ensures { Decides result (BeforeEdge table.now numbers.now used.now
        path.now count low n q) }
{
    some_chord(table, numbers, path, count, low, count - 2)
        || some_edge_above(table, numbers, used, path, count, n, q)
}
