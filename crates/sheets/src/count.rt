// A cell counted by cranes: it has a set of drawings and their number, and those of them that have a later sheet of their crane in the
// set are taken off. Where no crane has two sheets there is nothing to look at.
ghost use Rattle.std.specs.Prelude.{◌≡◌, Bool, List, ◌≤◌, length};
ghost use Rattle.growth.specs.Places.{cell_number};
ghost use Rattle.growth.specs.Sheets.{RepeatsTold, by_cranes};
ghost use Rattle.walks.specs.SheetTables.{sheets_of};

use crate::note::{later_in, repeated_in};
use marking::cells::ONE_MORE;
use surveys::labels::TABLES;

// The same set with the number of its cranes.
pub fn by_cranes(labels: &[u32; TABLES], cell: u64) -> u64
    requires { RepeatsTold (sheets_of labels.now) × ((marks : List Bool) × (length marks ≤ 32) × (cell ≡ cell_number marks)) }
    ensures { result ≡ by_cranes (sheets_of labels.now) cell }
{
    let set = (cell % ONE_MORE) as u32;
    let mut left = set & repeated_in(labels);
    let mut counted = cell;
    let mut d: usize = 0;
    while left != 0 {
        let zeros = u32::trailing_zeros(left);
        d = d + zeros as usize;
        if set & later_in(labels, d) != 0 {
            counted = counted - ONE_MORE;
        }
        left = (left >> zeros) / 2;
        d += 1;
    }
    counted
}
