// The catalogue of a survey: every pattern that drawings of enough cranes contain, with its least code and its support.
ghost use Rattle.growth.specs.Settings.{AcceptedSettings};
ghost use Rattle.mining.specs.UsualSettings.{usual};
ghost use Rattle.mining.specs.CatalogueSays.{CatalogueSays};
ghost use Rattle.mining.specs.WriteLaws.{Writes};

use crate::settings::{USUAL_LIMIT, USUAL_THRESHOLD, check_settings};
use records::bytes::clear;
use records::refusal::{Fault, Refusal};
use survey_patterns::survey::mine_survey;

// Writes the catalogue of an accepted survey. No list is given: the survey stands in its place, and is not looked at there.
fn write_accepted(
    survey: &[u8],
    threshold: usize,
    limit: usize,
    output: &mut [u8],
) -> Result<usize, Fault>
    requires { AcceptedSettings survey.now threshold limit }
    ensures { Writes survey.now threshold limit output.old result output.new }
{
    let Some(entries) = mine_survey(survey, threshold, limit, false, survey, output) else {
        clear(output);
        return Err(Fault::from(Refusal::OutputLength));
    };
    Ok(entries)
}

// Writes the catalogue of a survey: all patterns of at most `limit` cables that drawings of at least `threshold` cranes contain.
pub fn write_catalogue(
    survey: &[u8],
    threshold: u32,
    limit: u32,
    output: &mut [u8],
) -> Result<usize, Fault>
    ensures { CatalogueSays survey.now threshold limit result output.old output.new }
{
    check_settings(survey, threshold, limit)?;
    write_accepted(survey, threshold as usize, limit as usize, output)
}

// The usual catalogue: what drawings of at least two cranes contain, up to six cables.
pub fn usual_catalogue(survey: &[u8], output: &mut [u8]) -> Result<usize, Fault>
    ensures { CatalogueSays survey.now usual.threshold usual.limit result output.old output.new }
{
    write_catalogue(survey, USUAL_THRESHOLD, USUAL_LIMIT, output)
}
