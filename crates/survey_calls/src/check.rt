// The calls that check a list, with their answers as numbers: yes is 1, as the C interface has it.
use mining::check::{check_four, check_list, check_usual};
use records::refusal::Fault;
use transcript::answer::Answer;
use transcript::call::{Call, ListCheck};

// By the number of the call; of any other number the answer is that of no call.
pub fn ask_list(
    call: u32,
    survey: &[u8],
    threshold: u32,
    limit: u32,
    list: &[u8],
) -> Result<Answer, Fault> {
    let Ok(Call::ListCheck(check)) = Call::try_from(call) else {
        return Ok(Answer::NO_CALL);
    };
    let same = match check {
        ListCheck::Asked => check_list(survey, threshold, limit, list)?,
        ListCheck::Usual => check_usual(survey, list)?,
        ListCheck::Four => check_four(survey, list)?,
    };
    Ok(Answer::counted(usize::from(same)))
}
