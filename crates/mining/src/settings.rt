// What a catalogue is asked for: the settings that have a name; and the checks, the same for one that is written and for one that is checked, which
// is also given a list.
ghost use Rattle.std.specs.Prelude.{◌≡◌};
ghost use Rattle.graphs.specs.Survey.{survey_refusal};
ghost use Rattle.records.specs.Surveys.{survey_checked, SurveyAnswer};
ghost use Rattle.mining.specs.CheckSays.{entries_checked, check_refusal};

use checks::survey::check_survey;
use records::entry::Entry;
use records::refusal::{Fault, Refusal};
use records::survey::Survey;

// The usual settings.
pub(crate) const USUAL_THRESHOLD: u32 = 2;

pub(crate) const USUAL_LIMIT: u32 = 6;

// Those that were usual before: lists that were made so are in use.
pub(crate) const FORMER_THRESHOLD: u32 = 2;

pub(crate) const FORMER_LIMIT: u32 = 4;

// The first reason to refuse: the threshold, the size limit, then what the survey's own check says.
pub(crate) fn check_settings(survey: &[u8], threshold: u32, limit: u32) -> Result<usize, Fault>
    ensures { SurveyAnswer (survey_refusal survey.now threshold limit) survey.now result }
{
    let s = threshold as usize;
    if s < Survey::LEAST_DRAWINGS || Survey::MOST_DRAWINGS < s {
        return Err(Fault::from(Refusal::Threshold));
    }
    let l = limit as usize;
    if l < 1 || Entry::MOST_RECORDS < l {
        return Err(Fault::from(Refusal::SizeLimit));
    }
    check_survey(survey)
}

// The length of a list: the number of its entries, or 18.
fn check_entries(list: &[u8]) -> Result<usize, Fault>
    ensures { result ≡ entries_checked list.now }
{
    if list.len() % Entry::BYTES != 0 {
        return Err(Fault::from(Refusal::ListLength));
    }
    Ok(list.len() / Entry::BYTES)
}

// The first reason to refuse a list: what refuses a catalogue of the survey, then the list's length.
pub(crate) fn check_given(
    survey: &[u8],
    threshold: u32,
    limit: u32,
    list: &[u8],
) -> Result<usize, Fault>
    ensures { survey_checked result ≡ check_refusal survey.now threshold limit list.now }
{
    let asked = check_settings(survey, threshold, limit);
    let whole = check_entries(list);
    asked.and(whole)
}
