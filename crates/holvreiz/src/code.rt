// Coding for other languages: the least code of a drawing, the drawing of a code, the least test, the order of two codes.
ghost use Rattle.holvreiz.specs.Returns.{CodeReturns, DecodeReturns, LeastReturns, CompareReturns};

use answer_numbers::answers::{compared_number, verdict_number, written_number};
use coding::code::code_drawing;
use coding::least::is_least;
use comparing::compare::compare;
use decoding::decode::decode;

// The least code of a drawing. The count is the number of bytes written.
#[unsafe(no_mangle)]
pub extern "C" fn holvreiz_code(drawing: &[u8], output: &mut [u8]) -> u64
    ensures { CodeReturns drawing.now result output.old output.new }
{
    written_number(code_drawing(drawing, output))
}

// The drawing that a code describes. The count is the number of bytes written.
#[unsafe(no_mangle)]
pub extern "C" fn holvreiz_decode(code: &[u8], output: &mut [u8]) -> u64
    ensures { DecodeReturns code.now result output.old output.new }
{
    written_number(decode(code, output))
}

// Whether a code is the least of the drawing that it describes, and how far it agrees with the least one. The count is 256 times the agreement,
// and 1 more for yes.
#[unsafe(no_mangle)]
pub extern "C" fn holvreiz_is_least(code: &[u8]) -> u64
    ensures { LeastReturns code.now result }
{
    verdict_number(is_least(code))
}

// Where the first of two codes comes, and how far they agree. The count is 256 times the agreement, and 1 more for before, 2 more for after.
#[unsafe(no_mangle)]
pub extern "C" fn holvreiz_compare(first: &[u8], second: &[u8]) -> u64
    ensures { CompareReturns first.now second.now result }
{
    compared_number(compare(first, second))
}
