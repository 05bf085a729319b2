// The text of a survey's usual catalogue, over any lent bytes and over the program's own, which have room for every text.
ghost use Rattle.std.specs.Prelude.{length};
ghost use Rattle.catalogue.specs.SurveyText.{UsualTextSays, ProgramText};

use mining::catalogue::usual_catalogue;
use printing::text::write_text;

// The entries of the usual catalogue.
pub const ENTRY_BYTES: usize = 67080;

// 169 for the line of each of 1,560 entries, and 40 for the last line or a refusal: no text is longer.
pub const TEXT_BYTES: usize = 263680;

// Makes the text of the survey's usual catalogue in front of the lent bytes.
fn usual_text(survey: &[u8], entries: &mut [u8], text: &mut [u8]) -> Option<usize>
    ensures { UsualTextSays survey.now (length entries.old) result text.old text.new }
{
    let answer = usual_catalogue(survey, entries);
    write_text(answer, entries, text)
}

// The same in the program's own bytes, and the number of bytes that the text has. None never comes: every text fits.
pub fn whole_text(
    survey: &[u8],
    entries: &mut [u8; ENTRY_BYTES],
    text: &mut [u8; TEXT_BYTES],
) -> usize
    ensures { ProgramText survey.now result text.old text.new }
{
    usual_text(survey, entries, text).unwrap_or(0)
}
