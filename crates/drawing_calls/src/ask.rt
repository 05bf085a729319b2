// The calls that are lent no output, with their answers as numbers: yes, before and after are 1, 1 and 2, as the C interface
// has them. How far two codes agree is the number of the record on which they part.
use checks::drawing::check_drawing;
use checks::survey::check_survey;
use code_checks::answer::{Comparison, Verdict};
use code_checks::check::check_code;
use coding::least::is_least;
use comparing::compare::compare;
use matching::same::same;
use records::refusal::Fault;
use std::cmp::Ordering;
use transcript::answer::{Answer, checked};
use transcript::call::{Call, Question};

fn verdict(verdict: Verdict) -> Answer {
    Answer {
        at: verdict.agreement,
        count: usize::from(verdict.least),
        ..Answer::ACCEPTED
    }
}

fn compared(comparison: Comparison) -> Answer {
    let order = match comparison.order {
        Ordering::Equal => 0,
        Ordering::Less => 1,
        Ordering::Greater => 2,
    };
    Answer {
        at: comparison.agreement,
        count: order,
        ..Answer::ACCEPTED
    }
}

// By the number of the call; of any other number the answer is that of no call.
pub fn ask(call: u32, first: &[u8], second: &[u8]) -> Result<Answer, Fault> {
    let Ok(Call::Question(question)) = Call::try_from(call) else {
        return Ok(Answer::NO_CALL);
    };
    let answer = match question {
        Question::CheckDrawing => checked(check_drawing(first))?,
        Question::CheckSurvey => Answer::counted(check_survey(first)?),
        Question::CheckCode => checked(check_code(first))?,
        Question::IsLeast => verdict(is_least(first)?),
        Question::Compare => compared(compare(first, second)?),
        Question::Same => Answer::counted(usize::from(same(first, second)?)),
    };
    Ok(answer)
}
