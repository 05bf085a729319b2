// How a branch stands against the next row of an accepted code. That takes less than to find the least record that goes on and
// to compare it: only what comes before the row is looked for.
ghost use Rattle.std.specs.Prelude.{◌<◌};
ghost use Rattle.code_records.specs.Records.{as_rec};
ghost use Rattle.least_seen.specs.Meetings.{SomeRowNext, RowTold};

use crate::seen::{chord_order, is_lower, place_of, some_before};
use branches::extension::least_edge;
use code_records::record::Record;
use records::drawing::Drawing;
use std::cmp::Ordering;
use tables::table::{CELLS, label_of};

// Something that goes on comes before the row; the row is the first that does, backward, or forward from a place of the path
// along its label; or all that goes on comes after it.
#[derive(Drop)]
pub enum Met {
    Earlier,
    Back,
    Front(usize, u32),
    Later,
}

// Where the row is forward: a chord or an edge from above comes before it, then the least label from its place decides.
fn meet_forward(
    table: &[u32; CELLS],
    numbers: &[u8; Drawing::MOST_DEVICES],
    used: &[bool; Drawing::MOST_DEVICES],
    path: &[u8; Drawing::MOST_DEVICES],
    count: usize,
    low: usize,
    row: Record,
) -> Met
    requires { SomeRowNext table.now numbers.now used.now path.now count low (as_rec row) × (row.i < row.j) }
    ensures { RowTold table.now numbers.now used.now path.now
        count low (as_rec row) result }
{
    let q = place_of(path, count, row.i);
    if some_before(
        table,
        numbers,
        used,
        path,
        count,
        low,
        Drawing::MOST_DEVICES,
        q,
    ) {
        return Met::Earlier;
    }
    let wanted = label_of(row.c, row.kj);
    let least = least_edge(table, numbers, used, path, q);
    if is_lower(least, wanted) {
        return Met::Earlier;
    }
    if least == wanted {
        return Met::Front(q, least);
    }
    Met::Later
}

// Of a row that comes next in a code, behind the rows that the branch has followed.
pub fn meet_row(
    table: &[u32; CELLS],
    numbers: &[u8; Drawing::MOST_DEVICES],
    used: &[bool; Drawing::MOST_DEVICES],
    path: &[u8; Drawing::MOST_DEVICES],
    count: usize,
    low: usize,
    row: Record,
) -> Met
    requires { SomeRowNext table.now numbers.now used.now path.now count low (as_rec row) }
    ensures { RowTold table.now numbers.now used.now path.now
        count low (as_rec row) result }
{
    if row.i < row.j {
        return meet_forward(table, numbers, used, path, count, low, row);
    }
    let q = place_of(path, count, row.j);
    let wanted = label_of(row.c, row.kj);
    match chord_order(table, numbers, path, count, low, q, wanted) {
        Ordering::Less => Met::Earlier,
        Ordering::Equal => Met::Back,
        Ordering::Greater => Met::Later,
    }
}
