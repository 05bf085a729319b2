// The calls that write a catalogue, with their answers as numbers.
use mining::catalogue::{usual_catalogue, write_catalogue};
use records::refusal::Fault;
use transcript::answer::Answer;
use transcript::call::{Call, CatalogueCall};

// By the number of the call; of any other number the answer is that of no call.
pub fn write_entries(
    call: u32,
    survey: &[u8],
    threshold: u32,
    limit: u32,
    output: &mut [u8],
) -> Result<Answer, Fault> {
    let Ok(Call::Catalogue(catalogue)) = Call::try_from(call) else {
        return Ok(Answer::NO_CALL);
    };
    let entries = match catalogue {
        CatalogueCall::Asked => write_catalogue(survey, threshold, limit, output)?,
        CatalogueCall::Usual => usual_catalogue(survey, output)?,
    };
    Ok(Answer::counted(entries))
}
