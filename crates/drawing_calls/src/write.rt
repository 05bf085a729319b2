// The calls that are lent output, with their answers as numbers.
use coding::code::code_drawing;
use decoding::decode::decode;
use matching::map::match_drawing;
use records::refusal::Fault;
use transcript::answer::Answer;
use transcript::call::{Call, Writing};

// How many bytes are written; none where the drawing is not contained. By the number of the call, as `ask`.
pub fn write_one(
    call: u32,
    first: &[u8],
    second: &[u8],
    output: &mut [u8],
) -> Result<Answer, Fault> {
    let Ok(Call::Writing(writing)) = Call::try_from(call) else {
        return Ok(Answer::NO_CALL);
    };
    let written = match writing {
        Writing::CodeDrawing => code_drawing(first, output)?,
        Writing::Decode => decode(first, output)?,
        Writing::MatchDrawing => match_drawing(first, second, output)?.unwrap_or(0),
    };
    Ok(Answer::counted(written))
}
