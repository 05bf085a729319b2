// Whether a survey is accepted: its length, then its drawings, the lower one first.
ghost use Rattle.std.specs.Prelude.{◌≡◌};
ghost use Rattle.graphs.specs.Survey.{records_in, length_refusal, drawings_refusal, bytes_refusal};
ghost use Rattle.records.specs.Refusals.{checked_number};
ghost use Rattle.records.specs.Surveys.{SurveyAnswer};

use crate::drawing::check_drawing;
use records::drawing::Drawing;
use records::refusal::{Fault, Refusal};
use records::survey::Survey;

// The length place alone, which opening a survey checks too: whole drawings, and neither none nor too many.
#[tactic(auto, unfolding(graphs::specs::Survey::length_refusal))]
pub fn check_length(survey: &[u8]) -> Result<(), Refusal>
    ensures { checked_number result ≡ length_refusal survey.now }
{
    if survey.len() % Drawing::BYTES != 0 {
        return Err(Refusal::DrawingLength);
    }
    let drawings = Survey::counted(survey).drawings;
    if !(Survey::LEAST_DRAWINGS..=Survey::MOST_DRAWINGS).contains(&drawings) {
        return Err(Refusal::SurveyLength);
    }
    Ok(())
}

// The first reason to refuse a drawing of a survey: the lower drawing is checked fully before the next.
fn check_drawings(survey: &[u8]) -> Result<usize, Fault>
    ensures { SurveyAnswer (drawings_refusal 0 (records_in survey.now)) survey.now result }
{
    for (drawing, record) in survey.chunks_exact(Drawing::BYTES).enumerate() {
        if let Err(refusal) = check_drawing(record) {
            return Err(Fault { refusal, drawing });
        }
    }
    Ok(Survey::counted(survey).drawings)
}

// The first reason to refuse a survey: its length, then its drawings.
#[tactic(auto, using(crate::proofs::Places::survey_places))]
pub fn check_survey(survey: &[u8]) -> Result<usize, Fault>
    ensures { SurveyAnswer (bytes_refusal survey.now) survey.now result }
{
    check_length(survey)?;
    check_drawings(survey)
}
