// Reading a survey: to the end of the input, or as far as it takes to refuse it, unless a read fails. A read that fails is not
// tried again: after some failures the next read answers 0, as at the end of the input, and a part would pass for the whole.
ghost use Rattle.std.specs.Prelude.{◌≡◌, ◌+◌, ◌≤◌, pos, negsuc, IfOk, IfErr};
ghost use Rattle.survey_input.specs.ReadAnswers.{after_read};
ghost use Rattle.survey_input.specs.ReadingInput.{ReadWithin, ReadToEnd};

use std::io;
use std::io::Read;

// One drawing more than a survey may have: a longer input is refused as one of 33 drawings.
pub const INPUT_BYTES: usize = 2409;

// A read failed, whatever was read before it.
#[derive(Clone, Copy, Debug, PartialEq, Eq)]
pub struct ReadFailed;

// After a read: more is to be read, or all is, with so many bytes read so far; or it failed.
#[derive(Clone, Copy, Debug, PartialEq, Eq)]
pub enum Turn {
    More(usize),
    All(usize),
    Failed,
}

// What the answer of a read means, with n bytes read before it. In the definition it is a number: -1 that it failed, 0 that the input has
// ended.
fn after_read(n: usize, read: io::Result<usize>) -> Turn
    requires { IfOk read (λ k. n + k ≤ 2409) }
    ensures bytes { IfOk read (λ k. result ≡ after_read n (pos k)) }
    ensures failure { IfErr read (λ e. result ≡ after_read n (negsuc 0)) }
{
    let Ok(more) = read else {
        return Turn::Failed;
    };
    if more == 0 {
        return Turn::All(n);
    }
    if n + more < INPUT_BYTES {
        return Turn::More(n + more);
    }
    Turn::All(n + more)
}

// Reads a survey into the lent bytes, in as many reads as it takes, and answers how many bytes it has.
pub fn read_survey<R: Read>(
    reader: &mut R,
    input: &mut [u8; INPUT_BYTES],
) -> Result<usize, ReadFailed>
    ensures within { ReadWithin result input.new }
    ensures whole { ReadToEnd (R.remaining reader.old) (R.remaining reader.new) result input.new }
{
    let mut n = 0;
    loop {
        match after_read(n, reader.read(&mut input[n..])) {
            Turn::More(read) => n = read,
            Turn::All(read) => return Ok(read),
            Turn::Failed => return Err(ReadFailed),
        }
    }
}
