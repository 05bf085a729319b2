// Whether a drawing is accepted: refusals 1 to 8, place by place as the paper lists them.
ghost use Rattle.std.specs.Prelude.{◌≡◌};
ghost use Rattle.graphs.specs.Drawing.{unused_zero, drawing_refusal};
ghost use Rattle.records.specs.Refusals.{checked_number};
ghost use Rattle.drawing_checks.specs.Reached.{SoundCables};
ghost use Rattle.records.specs.Drawings.{rest_refusal, CountsWithin};

use drawing_checks::cables::check_cables;
use drawing_checks::reached::all_reached;
use drawing_checks::zeros::all_zero;
use records::drawing::Drawing;
use records::refusal::Refusal;

// Whether the kind bytes past the last device's and the cable bytes past the last cable's are zero.
#[tactic(auto, using(crate::proofs::Places::unused_places))]
fn unused_zero(drawing: &[u8], counts: Drawing) -> bool
    requires { CountsWithin drawing.now counts }
    ensures { result ≡ unused_zero drawing.now }
{
    let kinds_end = Drawing::KINDS_AT + counts.devices;
    let cables_end = Drawing::CABLES_AT + Drawing::CABLE_BYTES * counts.cables;
    all_zero(&drawing[kinds_end..Drawing::CABLES_AT])
        && all_zero(&drawing[cables_end..Drawing::CRANE_AT])
}

// The first reason to refuse the rest of a drawing whose cables are sound: the unused bytes, then whether it is connected.
#[tactic(auto, unfolding(records::specs::Drawings::rest_refusal))]
fn check_rest(drawing: &[u8], counts: Drawing) -> Result<(), Refusal>
    requires { SoundCables drawing.now counts }
    ensures { checked_number result ≡ rest_refusal drawing.now }
{
    if !unused_zero(drawing, counts) {
        return Err(Refusal::UnusedByte);
    }
    if !all_reached(drawing, counts) {
        return Err(Refusal::NotConnected);
    }
    Ok(())
}

// The first reason to refuse a drawing, place by place as the paper lists them.
#[tactic(auto, using(crate::proofs::Places::drawing_places))]
pub fn check_drawing(drawing: &[u8]) -> Result<(), Refusal>
    ensures { checked_number result ≡ drawing_refusal drawing.now }
{
    if drawing.len() != Drawing::BYTES {
        return Err(Refusal::DrawingLength);
    }
    let counts = Drawing::counted(drawing);
    counts.check_counts()?;
    check_cables(drawing, counts.devices, counts.cables)?;
    check_rest(drawing, counts)
}
