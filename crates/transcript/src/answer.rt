// What a call answered, as three numbers: a refusal's is the paper's.
ghost use Rattle.std.specs.Prelude.{◌≡◌};
ghost use Rattle.transcript.specs.CallAnswers.{fault_answer, CheckAnswers};

use records::refusal::{Fault, Refusal};

// The refusal, 0 for none; the drawing or the code record at fault, or the record on which two codes part; the count.
#[derive(Clone, Copy)]
pub struct Answer {
    pub refusal: u32,
    pub at: usize,
    pub count: usize,
}

impl Answer {
    // What a check answers that refuses nothing.
    pub const ACCEPTED: Answer = Answer {
        refusal: 0,
        at: 0,
        count: 0,
    };

    // No refusal has this number: the list asks for a call that there is not.
    pub const NO_CALL: Answer = Answer {
        refusal: 99,
        ..Answer::ACCEPTED
    };

    // How many there are.
    pub fn counted(count: usize) -> Self
        ensures { result ≡ record { refusal = 0; at = 0; count = count } }
    {
        Answer {
            count,
            ..Answer::ACCEPTED
        }
    }
}

// A refusal, with the code record at fault or else with the drawing.
impl From<Fault> for Answer {
    ghost from_gives = { λ f a. a ≡ fault_answer f };

    fn from(fault: Fault) -> Self {
        let at = match fault.refusal {
            Refusal::Step(record) | Refusal::Kind(record) => record,
            _ => fault.drawing,
        };
        Answer {
            refusal: fault.refusal.number(),
            at,
            count: 0,
        }
    }
}

// What a check answers.
pub fn checked(answer: Result<(), Refusal>) -> Result<Answer, Fault>
    ensures { CheckAnswers answer result }
{
    answer?;
    Ok(Answer::ACCEPTED)
}
