// The parts of a survey that opening and fetching give.
ghost use Rattle.std.specs.Prelude.{◌≡◌};
ghost use Rattle.records.specs.Refusals.{checked_number};
ghost use Rattle.graphs.specs.Survey.{drawing_count};
ghost use Rattle.reader.specs.Readers.{Readable, DrawingAt, fetch_refusal};

use checks::survey::check_length;
use records::drawing::Drawing;
use records::refusal::Refusal;
use records::survey::Survey;

// The bytes that may be read: all, or none where the length is refused. So the number of drawings follows from the bytes.
pub fn readable_part(survey: &[u8]) -> &[u8]
    ensures { Readable survey.entry result }
{
    if check_length(survey).is_err() {
        return &survey[..0];
    }
    survey
}

// The bytes of drawing d, where there is such a drawing.
pub fn drawing_part(survey: &[u8], d: usize) -> Option<&[u8]>
    ensures { DrawingAt survey.entry d result }
{
    if Survey::counted(survey).drawings <= d {
        return None;
    }
    let at = Drawing::BYTES * d;
    let end = at + Drawing::BYTES;
    Some(&survey[at..end])
}

// Whether there is a drawing d, of any bytes: a reader is asked by fetching.
pub fn check_fetch(survey: &[u8], d: usize) -> Result<(), Refusal>
    ensures { checked_number result ≡ fetch_refusal (drawing_count survey.now) d }
{
    let drawings = Survey::counted(survey).drawings;
    if drawings <= d {
        return Err(Refusal::SurveyLength);
    }
    Ok(())
}
