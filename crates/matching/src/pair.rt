// Two drawings that a call compares.
ghost use Rattle.std.specs.Prelude.{◌≡◌};
ghost use Rattle.graphs.specs.Drawing.{drawing_refusal};
ghost use Rattle.records.specs.Refusals.{checked_number, first_of};

use checks::drawing::check_drawing;
use records::refusal::Refusal;

// The first reason to refuse one of two drawings: the first is checked fully before the second.
pub(crate) fn check_both(first: &[u8], second: &[u8]) -> Result<(), Refusal>
    ensures { checked_number result ≡ first_of (drawing_refusal first.now) (drawing_refusal second.now) }
{
    check_drawing(first)?;
    check_drawing(second)
}
