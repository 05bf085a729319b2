// Exchangeable devices, twins: a table of labels stays as it is when the two are swapped. Of several without a number a search
// follows one, since what is below one of them is below each.
ghost use Rattle.std.specs.Prelude.{◌<◌, IfSome};
ghost use Rattle.laws.specs.Decides.{Decides};
ghost use Rattle.codes.specs.Twins.{Alike, Exchangeable, TwinsNoted, CanTellTwin, TwinTold};

use crate::table::{CELLS, label};
use records::drawing::Drawing;

// Whether device w has the same cables with u as with v. Where it is one of them, nothing is asked of it.
fn alike(table: &[u32; CELLS], u: usize, v: usize, w: usize) -> bool
    requires { (u < 10) × (v < 10) × (w < 10) }
    ensures { Decides result (Alike table.now u v w) }
{
    if w == u || w == v {
        return true;
    }
    label(table, u, w) == label(table, v, w) && label(table, w, u) == label(table, w, v)
}

// Whether two devices can be exchanged. The device `first` is asked before the others: one that joins v tells most pairs apart.
fn exchangeable(table: &[u32; CELLS], u: usize, v: usize, first: usize) -> bool
    requires { (u < 10) × (v < 10) × (first < 10) }
    ensures { Decides result (Exchangeable table.now u v) }
{
    alike(table, u, v, first)
        && label(table, u, v) == label(table, v, u)
        && (0..Drawing::MOST_DEVICES).all(|w| alike(table, u, v, w))
}

// The first device with a cable to v.
fn neighbour(table: &[u32; CELLS], v: usize) -> Option<usize>
    requires { v < 10 }
    ensures { IfSome result (λ w. w < 10) }
{
    (0..Drawing::MOST_DEVICES).find(|&w| label(table, v, w) != 0)
}

// The greatest device below v with which it can be exchanged. Where v has no cable it is never followed, and none is looked for.
fn twin_below(table: &[u32; CELLS], v: usize) -> Option<usize>
    requires { v < 10 }
    ensures { IfSome result (λ u. (u < v) × Exchangeable table.now u v) }
{
    let first = neighbour(table, v)?;
    (0..v).rev().find(|&u| exchangeable(table, u, v, first))
}

// The same for every device; ten where there is none.
// Ten and no Option: no heap, a search is lent the packed bytes.
pub fn twins_of(table: &[u32; CELLS]) -> [u8; Drawing::MOST_DEVICES]
    ensures { TwinsNoted table.now result }
{
    let mut twins = [Drawing::MOST_DEVICES as u8; Drawing::MOST_DEVICES];
    for v in 0..Drawing::MOST_DEVICES {
        if let Some(u) = twin_below(table, v) {
            twins[v] = u as u8;
        }
    }
    twins
}

// Whether a twin below device w has no number, so that a search may pass over w.
pub fn has_free_twin(
    twins: &[u8; Drawing::MOST_DEVICES],
    used: &[bool; Drawing::MOST_DEVICES],
    w: usize,
) -> bool
    requires { CanTellTwin twins.now used.now w }
    ensures { TwinTold twins.now used.now w result }
{
    let mut u = usize::from(twins[w]);
    while u < Drawing::MOST_DEVICES {
        if !used[u] {
            return true;
        }
        u = usize::from(twins[u]);
    }
    false
}
