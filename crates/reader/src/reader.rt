// A survey that was opened; the work is in part.rt.
ghost use Rattle.reader.specs.Readers.{Opens, Fetches};

use crate::part::{drawing_part, readable_part};
use checks::survey::check_length;
use records::refusal::Refusal;

// The bytes of the survey, lent; none where opening was refused.
#[derive(Clone, Copy)]
pub struct Reader<'a> {
    bytes: &'a [u8],
}

// What opening gives: a reader, of no drawings where the length is refused.
// Not a Result, by `Opens`: a survey that is refused still gives a reader, from which each fetch is refused.
#[derive(Clone, Copy)]
pub struct Opened<'a> {
    pub reader: Reader<'a>,
    pub checked: Result<(), Refusal>,
}

impl<'a> Reader<'a> {
    // Opens a survey, of which the length alone is checked.
    pub fn open(survey: &'a [u8]) -> Opened<'a>
        ensures { Opens survey.entry result }
    {
        let bytes = readable_part(survey);
        let checked = check_length(survey);
        Opened {
            reader: Reader { bytes },
            checked,
        }
    }

    // Fetches drawing d, as those very bytes of the survey.
    pub fn fetch(self, d: usize) -> Result<&'a [u8], Refusal>
        ensures { Fetches self.entry d result }
    {
        drawing_part(self.bytes, d).ok_or(Refusal::SurveyLength)
    }
}
