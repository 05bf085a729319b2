// Whether two drawings show one pattern.
ghost use Rattle.matching.specs.MatchAnswers.{SameSays};

use crate::pair::check_both;
use map_search::search::least_map;
use records::drawing::Drawing;
use records::refusal::Refusal;

// Two drawings are the same if the first is contained in the second with as many devices and as many cables.
pub fn same(first: &[u8], second: &[u8]) -> Result<bool, Refusal>
    ensures { SameSays first.now second.now result }
{
    check_both(first, second)?;
    let a = Drawing::counted(first);
    let b = Drawing::counted(second);
    if a.devices != b.devices || a.cables != b.cables {
        return Ok(false);
    }
    Ok(least_map(first, second).is_some())
}
