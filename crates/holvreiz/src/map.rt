// Matching for other languages: the least map of a pattern into a drawing, and whether two drawings are the same.
ghost use Rattle.holvreiz.specs.Returns.{MatchReturns, SameReturns};

use answer_numbers::answers::{matched_number, sameness_number};
use matching::map::match_drawing;
use matching::same::same;

// The least map of a pattern into a drawing. The count is the number of the pattern's devices, 0 where it is not contained.
#[unsafe(no_mangle)]
pub extern "C" fn holvreiz_match(pattern: &[u8], drawing: &[u8], output: &mut [u8]) -> u64
    ensures { MatchReturns pattern.now drawing.now result output.old output.new }
{
    matched_number(match_drawing(pattern, drawing, output))
}

// Whether two drawings are the same. The count is 1 for yes, 0 for no.
#[unsafe(no_mangle)]
pub extern "C" fn holvreiz_same(first: &[u8], second: &[u8]) -> u64
    ensures { SameReturns first.now second.now result }
{
    sameness_number(same(first, second))
}
