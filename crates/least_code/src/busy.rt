// The cable to begin with. Any order of starts gives the least code; an early good code spares most of the others' branches.
ghost use Rattle.std.specs.Prelude.{◌≡◌, ◌<◌, get_or};
ghost use Rattle.graphs.specs.Drawing.{drawing_refusal};
ghost use Rattle.least_code.specs.Degrees.{DegreesWithin};

use records::cable::Cable;
use records::drawing::Drawing;

// How many of an accepted drawing's m cables each device has.
fn degrees(drawing: &[u8], m: usize) -> [u8; Drawing::MOST_DEVICES]
    requires { (drawing_refusal drawing.now ≡ 0) × (m ≡ get_or drawing.now 1 0) }
    ensures { DegreesWithin 40 result }
{
    let mut counts = [0; Drawing::MOST_DEVICES];
    for c in 0..m {
        let cable = Cable::at(drawing, c);
        let a = cable.a;
        let b = cable.b;
        counts[a] += 1;
        counts[b] += 1;
    }
    counts
}

// A cable whose two ends have the most cables together.
pub(crate) fn busiest(drawing: &[u8], m: usize) -> usize
    requires { (drawing_refusal drawing.now ≡ 0) × (m ≡ get_or drawing.now 1 0) × (0 < m) }
    ensures { result < m }
{
    let counts = degrees(drawing, m);
    let mut busy = 0;
    let mut most = 0;
    for c in 0..m {
        let cable = Cable::at(drawing, c);
        let a = cable.a;
        let b = cable.b;
        let both = usize::from(counts[a]) + usize::from(counts[b]);
        if most < both {
            most = both;
            busy = c;
        }
    }
    busy
}
