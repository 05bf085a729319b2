// The ways on from a branch along a forward record: the devices that have no number and its label. The record is the same for all, so
// that a search has to follow every one of them; but of exchangeable devices the first stands for all.
ghost use Rattle.std.specs.Prelude.{◌≡◌, ℕ, ◌<◌, length, Some};
ghost use Rattle.codes.specs.Twins.{TwinsNoted};
ghost use Rattle.branches.specs.Branches.{in_place, OnPath};
ghost use Rattle.branches.specs.Ways.{NextWay, TieTold};

use crate::branch::device_at;
use crate::extension::Extension;
use records::drawing::Drawing;
use tables::table::{CELLS, label};
use tables::twins::has_free_twin;

// Whether device w has no number and the label l from device u, and is not passed over.
fn ties(
    table: &[u32; CELLS],
    twins: &[u8; Drawing::MOST_DEVICES],
    used: &[bool; Drawing::MOST_DEVICES],
    u: usize,
    l: u32,
    w: usize,
) -> bool
    requires { (u < 10) × (w < 10) × (length used.now ≡ 10) × TwinsNoted table.now twins.now }
    ensures { TieTold table.now used.now u l w result }
{
    !used[w] && label(table, u, w) == l && !has_free_twin(twins, used, w)
}

// The first device from `from` on that has no number and the label l at place q, and is not passed over.
pub fn next_tie(
    table: &[u32; CELLS],
    twins: &[u8; Drawing::MOST_DEVICES],
    numbers: &[u8; Drawing::MOST_DEVICES],
    used: &[bool; Drawing::MOST_DEVICES],
    path: &[u8; Drawing::MOST_DEVICES],
    q: usize,
    l: u32,
    from: usize,
) -> Option<usize>
    requires { OnPath numbers.now path.now q × (length used.now ≡ 10) × TwinsNoted table.now twins.now }
    ensures { (count given low : ℕ) → NextWay table.now
        (in_place numbers.now used.now path.now count given low) (Some (Extension.Edge q l)) from result }
{
    let device = device_at(numbers, path, q);
    (from..Drawing::MOST_DEVICES).find(|&w| ties(table, twins, used, device, l, w))
}
