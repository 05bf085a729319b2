// The kinds that devices have: no pattern begins with another, so that no drawing has to be looked through for it.
ghost use Rattle.std.specs.Prelude.{◌≡◌, length};
ghost use Rattle.graphs.specs.Drawing.{drawing_refusal};
ghost use Rattle.graphs.specs.Survey.{bytes_refusal};
ghost use Rattle.walks.specs.Kinds.{Noted, Occurs};

use records::drawing::Drawing;
use records::survey::Survey;

// Kinds are bytes.
pub const KINDS: usize = 256;

// Marks the kinds of a drawing record. A place without a device has kind 0, which is then marked without need.
fn note_kinds(drawing: &[u8], occurs: &mut [bool; KINDS])
    requires { (drawing_refusal drawing.now ≡ 0) × (length occurs.old ≡ 256) }
    ensures { Noted drawing.now 10 occurs.old occurs.new }
{
    for &kind in &drawing[Drawing::KINDS_AT..Drawing::KINDS_AT + Drawing::MOST_DEVICES] {
        occurs[usize::from(kind)] = true;
    }
}

// Marks the kinds of all drawings.
pub fn kinds_of(survey: &[u8]) -> [bool; KINDS]
    requires { (bytes_refusal survey.now).number ≡ 0 }
    ensures { Occurs survey.now result }
{
    let mut occurs = [false; KINDS];
    let drawings = Survey::counted(survey).drawings;
    for d in 0..drawings {
        let at = Drawing::BYTES * d;
        let end = at + Drawing::BYTES;
        note_kinds(&survey[at..end], &mut occurs);
    }
    occurs
}
