// The search for the least code of a drawing, over all starts and all choices of the next cable.
ghost use Rattle.std.specs.Prelude.{◌≡◌, ◌<◌, length, get_or};
ghost use Rattle.graphs.specs.Drawing.{drawing_in, drawing_refusal};
ghost use Rattle.codes.specs.Code.{recs_in, Least};
ghost use Rattle.codes.specs.Twins.{TwinsNoted};
ghost use Rattle.readings.specs.Readings.{held_records};
ghost use Rattle.least_code.specs.Starting.{StartFrom, StartDone, CableFrom, OneCableMore};

use crate::best::{choose_at, order_at};
use crate::busy::busiest;
use branches::next::first_record;
use least_below::below::search_first;
use records::cable::Cable;
use records::code::Code;
use records::drawing::Drawing;
use std::cmp::Ordering;
use tables::table::{CELLS, labels_of_drawing};
use tables::twins::twins_of;

// All codes that begin with a cable from its end a to its end b, against the best so far. Any cable can begin a code, so a
// first record after the best's says that none of them is less.
fn start(
    drawing: &[u8],
    table: &[u32; CELLS],
    twins: &[u8; Drawing::MOST_DEVICES],
    m: usize,
    cable: Cable,
    best: &mut [u8; Code::BYTES],
    held: usize,
) -> usize
    requires { StartFrom drawing.now table.now m cable.a cable.b cable.kind (recs_in held best.old)
        × TwinsNoted table.now twins.now × (length best.old ≡ 100) }
    ensures { StartDone (drawing_in drawing.now) cable.a cable.b cable.kind
        (recs_in held best.old) (recs_in result best.new) × (length best.new ≡ 100) }
{
    let u = cable.a;
    let w = cable.b;
    let next = first_record(drawing, table, u, w);
    let order = order_at(best, held, 0, next);
    if let Ordering::Greater = order {
        return held;
    }
    let kept = choose_at(best, held, 0, next, order);
    search_first(drawing, table, twins, m, u, w, best, kept)
}

// The same from either end of cable c, whichever cables have been seen so before it.
fn start_either(
    drawing: &[u8],
    table: &[u32; CELLS],
    twins: &[u8; Drawing::MOST_DEVICES],
    m: usize,
    c: usize,
    best: &mut [u8; Code::BYTES],
    held: usize,
) -> usize
    requires { CableFrom drawing.now table.now m c (recs_in held best.old)
        × TwinsNoted table.now twins.now × (length best.old ≡ 100) }
    ensures { OneCableMore drawing.now c (recs_in held best.old) (recs_in result best.new)
        × (length best.new ≡ 100) }
{
    let cable = Cable::at(drawing, c);
    let turned = Cable {
        a: cable.b,
        b: cable.a,
        kind: cable.kind,
    };
    let kept = start(drawing, table, twins, m, cable, best, held);
    start(drawing, table, twins, m, turned, best, kept)
}

// The least code of an accepted drawing of m cables, at least one: each of them begins one, from either end, the busiest first.
pub fn least_code(drawing: &[u8], m: usize) -> Code
    requires { (drawing_refusal drawing.now ≡ 0) × (m ≡ get_or drawing.now 1 0) × (0 < m) }
    ensures { Least (drawing_in drawing.now) (held_records result) }
{
    let table = labels_of_drawing(drawing);
    let twins = twins_of(&table);
    let mut records = [0; Code::BYTES];
    let busy = busiest(drawing, m);
    let mut held = start_either(drawing, &table, &twins, m, busy, &mut records, 0);
    for c in 0..m {
        if c != busy {
            held = start_either(drawing, &table, &twins, m, c, &mut records, held);
        }
    }
    Code {
        records,
        count: held,
        path: [0; Drawing::MOST_DEVICES],
        path_count: 0,
    }
}
