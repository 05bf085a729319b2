// Whether a list that was made elsewhere is the catalogue of a survey, byte for byte. It is held against the walk that writes a catalogue,
// entry by entry; no catalogue is stored.
ghost use Rattle.growth.specs.Settings.{AcceptedSettings};
ghost use Rattle.mining.specs.UsualSettings.{usual, former};
ghost use Rattle.mining.specs.CheckSays.{CheckSays};
ghost use Rattle.mining.specs.ListCheckLaws.{HoldsList};

use crate::settings::{FORMER_LIMIT, FORMER_THRESHOLD, USUAL_LIMIT, USUAL_THRESHOLD, check_given};
use records::entry::Entry;
use records::refusal::Fault;
use survey_patterns::survey::mine_survey;

// Holds a list against the patterns of an accepted survey: it is the catalogue if all their entries stand there and nothing is left. No
// output is lent: a byte stands in its place, and is not written.
fn holds(survey: &[u8], threshold: usize, limit: usize, list: &[u8]) -> bool
    requires { AcceptedSettings survey.now threshold limit }
    ensures { HoldsList survey.now threshold limit list.now result }
{
    let mut nothing = [0; 1];
    let Some(entries) = mine_survey(survey, threshold, limit, true, list, &mut nothing) else {
        return false;
    };
    list.len() == Entry::BYTES * entries
}

// Whether a list is the catalogue of a survey: all patterns of at most `limit` cables that drawings of at least `threshold` cranes
// contain. The list's bytes are only compared.
pub fn check_list(survey: &[u8], threshold: u32, limit: u32, list: &[u8]) -> Result<bool, Fault>
    ensures { CheckSays survey.now threshold limit list.now result }
{
    check_given(survey, threshold, limit, list)?;
    Ok(holds(survey, threshold as usize, limit as usize, list))
}

// The same of the usual catalogue: what drawings of at least two cranes contain, up to six cables.
pub fn check_usual(survey: &[u8], list: &[u8]) -> Result<bool, Fault>
    ensures { CheckSays survey.now usual.threshold usual.limit list.now result }
{
    check_list(survey, USUAL_THRESHOLD, USUAL_LIMIT, list)
}

// The same of the catalogue that was usual before, up to four cables.
pub fn check_four(survey: &[u8], list: &[u8]) -> Result<bool, Fault>
    ensures { CheckSays survey.now former.threshold former.limit list.now result }
{
    check_list(survey, FORMER_THRESHOLD, FORMER_LIMIT, list)
}
