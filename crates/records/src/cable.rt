// The cables of a drawing's record. A cable's two ends have no order; its number is its place in the record, from 0.
ghost use Rattle.std.specs.Prelude.{◌≡◌, ◌≤◌, ◌<◌, length};
ghost use Rattle.records.specs.DrawingCables.{as_cable, cable_at};

use crate::bytes::byte_or_zero;
use crate::drawing::Drawing;

// One end, the other end, and the kind of the cable between them.
#[derive(Clone, Copy)]
pub struct Cable {
    pub a: usize,
    pub b: usize,
    pub kind: usize,
}

impl Cable {
    // Cable c of a record that has room for it.
    fn within(drawing: &[u8], c: usize) -> Self
        requires { (c < 20) × (72 ≤ length drawing.now) }
        ensures { as_cable result ≡ cable_at drawing.now c }
    {
        let at = Drawing::CABLES_AT + Drawing::CABLE_BYTES * c;
        Cable {
            a: usize::from(drawing[at]),
            b: usize::from(drawing[at + 1]),
            kind: usize::from(drawing[at + 2]),
        }
    }

    // Cable c of a record. Nearly always all three bytes are there, which one test tells. Where the bytes end before it there is nothing to
    // read, and its offset need not even fit.
    pub fn at(drawing: &[u8], c: usize) -> Self
        ensures { as_cable result ≡ cable_at drawing.now c }
    {
        if c < Drawing::MOST_CABLES && Drawing::CRANE_AT <= drawing.len() {
            return Cable::within(drawing, c);
        }
        if drawing.len() / Drawing::CABLE_BYTES <= c {
            return Cable {
                a: 0,
                b: 0,
                kind: 0,
            };
        }
        let at = Drawing::CABLES_AT + Drawing::CABLE_BYTES * c;
        Cable {
            a: byte_or_zero(drawing, at),
            b: byte_or_zero(drawing, at + 1),
            kind: byte_or_zero(drawing, at + 2),
        }
    }
}
