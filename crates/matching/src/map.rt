// The least map of a pattern into a drawing.
ghost use Rattle.matching.specs.MatchAnswers.{MatchSays};

use crate::pair::check_both;
use map_search::search::least_map;
use records::drawing::Drawing;
use records::refusal::Refusal;

// Writes the least map of a pattern into a drawing: for each device of the pattern, in order, the device that it is sent to. The answer is the
// number of bytes written, or None where there is no map.
pub fn match_drawing(
    pattern: &[u8],
    drawing: &[u8],
    output: &mut [u8],
) -> Result<Option<usize>, Refusal>
    ensures { MatchSays pattern.now drawing.now result output.old output.new }
{
    check_both(pattern, drawing)?;
    let n = Drawing::counted(pattern).devices;
    if output.len() < n {
        return Err(Refusal::OutputLength);
    }
    let Some(map) = least_map(pattern, drawing) else {
        return Ok(None);
    };
    output[..n].copy_from_slice(&map[..n]);
    Ok(Some(n))
}
