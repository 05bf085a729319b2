// Why a call is turned back. The paper's number of each reason is `number_of`, of specs/Refusals.antt.
ghost use Rattle.std.specs.Prelude.{◌≡◌};
ghost use Rattle.records.specs.Refusals.{number_of, lone_fault};

// One reason for each number of the paper, in its order. Step and Kind name the code record at fault, counted from 0.
#[derive(Clone, Copy, Debug, PartialEq, Eq)]
pub enum Refusal {
    DrawingLength,
    DeviceCount,
    CableCount,
    CableEnd,
    CableLoop,
    CablePair,
    UnusedByte,
    NotConnected,
    CodeLength,
    Step(usize),
    Kind(usize),
    Threshold,
    SizeLimit,
    SurveyLength,
    OutputLength,
    KindCount,
    BookLimit,
    ListLength,
}

impl Refusal {
    // The paper's number, for whoever has to print or return it.
    pub fn number(self) -> u32
        ensures { result ≡ number_of self }
    {
        match self {
            Refusal::DrawingLength => 1,
            Refusal::DeviceCount => 2,
            Refusal::CableCount => 3,
            Refusal::CableEnd => 4,
            Refusal::CableLoop => 5,
            Refusal::CablePair => 6,
            Refusal::UnusedByte => 7,
            Refusal::NotConnected => 8,
            Refusal::CodeLength => 9,
            Refusal::Step(_) => 10,
            Refusal::Kind(_) => 11,
            Refusal::Threshold => 12,
            Refusal::SizeLimit => 13,
            Refusal::SurveyLength => 14,
            Refusal::OutputLength => 15,
            Refusal::KindCount => 16,
            Refusal::BookLimit => 17,
            Refusal::ListLength => 18,
        }
    }
}

// Why a call over a survey is turned back: the reason, and the drawing at fault counted from 0, which is 0 where no drawing is.
#[derive(Clone, Copy, Debug, PartialEq, Eq)]
pub struct Fault {
    pub refusal: Refusal,
    pub drawing: usize,
}

// A reason that no drawing is at fault for.
impl From<Refusal> for Fault {
    ghost from_gives = { λ r f. f ≡ lone_fault r };

    fn from(refusal: Refusal) -> Self {
        Fault {
            refusal,
            drawing: 0,
        }
    }
}
