// The least record that goes on from a branch: a backward one to the lowest place that has a cable, else a forward one
// from the deepest place that has one, along its least label.
ghost use Rattle.std.specs.Prelude.{◌≡◌, Bool, List, ℕ, ◌<◌, length};
ghost use Rattle.codes.specs.BranchState.{NoChord};
ghost use Rattle.branches.specs.Branches.{in_place, OnPath, Places};
ghost use Rattle.branches.specs.Extensions.{lesser_label, ChordSeen, FirstChord, LeastEdge, ExtensionFound};

use crate::branch::device_at;
use records::drawing::Drawing;
use tables::table::{CELLS, label};

// A backward record to a place of the path, or a forward one from a place of the path, each with its label.
#[derive(Clone, Copy)]
pub enum Extension {
    Chord(usize, u32),
    Edge(usize, u32),
}

// The label from the path's end to place q, where a backward step may go there; elsewhere 0, as if no cable were there.
fn chord_label(
    table: &[u32; CELLS],
    numbers: &[u8; Drawing::MOST_DEVICES],
    path: &[u8; Drawing::MOST_DEVICES],
    count: usize,
    low: usize,
    q: usize,
) -> u32
    requires { Places numbers.now path.now count × (q < count) }
    ensures { (used : List Bool) (given : ℕ)
        → ChordSeen table.now (in_place numbers.now used path.now count given low) q result }
{
    if count <= q + 2 || usize::from(path[q]) < low {
        return 0;
    }
    label(
        table,
        device_at(numbers, path, count - 1),
        device_at(numbers, path, q),
    )
}

// The lowest place that has a chord, and its label: backward records rise by the device that they go to.
fn first_chord(
    table: &[u32; CELLS],
    numbers: &[u8; Drawing::MOST_DEVICES],
    path: &[u8; Drawing::MOST_DEVICES],
    count: usize,
    low: usize,
) -> Option<(usize, u32)>
    requires { Places numbers.now path.now count }
    ensures { (used : List Bool) (given : ℕ)
        → FirstChord table.now (in_place numbers.now used path.now count given low) result }
{
    for q in 0..count {
        let l = chord_label(table, numbers, path, count, low, q);
        if l != 0 {
            return Some((q, l));
        }
    }
    None
}

// The lesser of two labels, of which 0 is none.
// 0 and no Option, as in the cells of a table: each label read would be turned, the new form is no plainer.
#[tactic(auto, unfolding(crate::specs::Extensions::lesser_label))]
fn lesser(a: u32, b: u32) -> u32
    ensures { result ≡ lesser_label a b }
{
    match (a, b) {
        (0, _) => b,
        (_, 0) => a,
        _ => a.min(b),
    }
}

// The least label from place q to a device that has no number, or 0.
pub fn least_edge(
    table: &[u32; CELLS],
    numbers: &[u8; Drawing::MOST_DEVICES],
    used: &[bool; Drawing::MOST_DEVICES],
    path: &[u8; Drawing::MOST_DEVICES],
    q: usize,
) -> u32
    requires { OnPath numbers.now path.now q × (length used.now ≡ 10) }
    ensures { (count given low : ℕ) → LeastEdge table.now
        (in_place numbers.now used.now path.now count given low) q 10 result }
{
    let from = device_at(numbers, path, q);
    let mut least = 0;
    for (w, &is_used) in used.iter().enumerate() {
        if !is_used {
            least = lesser(least, label(table, from, w));
        }
    }
    least
}

// Where there is no chord, the deepest place that has an edge: forward records fall by the device that they come from.
fn deepest_edge(
    table: &[u32; CELLS],
    numbers: &[u8; Drawing::MOST_DEVICES],
    used: &[bool; Drawing::MOST_DEVICES],
    path: &[u8; Drawing::MOST_DEVICES],
    count: usize,
) -> Option<Extension>
    requires { Places numbers.now path.now count × (length used.now ≡ 10) }
    ensures { (given low : ℕ)
        → NoChord table.now (in_place numbers.now used.now path.now count given low)
        → ExtensionFound table.now
        (in_place numbers.now used.now path.now count given low) result }
{
    for q in (0..count).rev() {
        let least = least_edge(table, numbers, used, path, q);
        if least != 0 {
            return Some(Extension::Edge(q, least));
        }
    }
    None
}

// The least record that goes on from a branch.
pub fn least_extension(
    table: &[u32; CELLS],
    numbers: &[u8; Drawing::MOST_DEVICES],
    used: &[bool; Drawing::MOST_DEVICES],
    path: &[u8; Drawing::MOST_DEVICES],
    count: usize,
    low: usize,
) -> Option<Extension>
    requires { Places numbers.now path.now count × (length used.now ≡ 10) }
    ensures { (given : ℕ) → ExtensionFound table.now
        (in_place numbers.now used.now path.now count given low) result }
{
    match first_chord(table, numbers, path, count, low) {
        Some((q, l)) => Some(Extension::Chord(q, l)),
        None => deepest_edge(table, numbers, used, path, count),
    }
}
