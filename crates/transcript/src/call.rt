// The calls that a list asks for, each by its number. They stand together by what a call is passed.
ghost use Rattle.transcript.specs.Calls.{Asks};

// The calls over drawings and codes that are lent no output.
#[derive(Clone, Copy)]
pub enum Question {
    CheckDrawing,
    CheckSurvey,
    CheckCode,
    IsLeast,
    Compare,
    Same,
}

// The calls over drawings and codes that are lent output.
#[derive(Clone, Copy)]
pub enum Writing {
    CodeDrawing,
    Decode,
    MatchDrawing,
}

// The calls that write a catalogue: with the settings that are asked for, or with the usual ones.
#[derive(Clone, Copy)]
pub enum CatalogueCall {
    Asked,
    Usual,
}

// The calls that check a list against a catalogue, of the settings that are asked for, the usual ones, or those of four drawings.
#[derive(Clone, Copy)]
pub enum ListCheck {
    Asked,
    Usual,
    Four,
}

// A call of the library; Fetch is the reader's, which opens a survey once and then fetches from it.
#[derive(Clone, Copy)]
pub enum Call {
    Question(Question),
    Fetch,
    Writing(Writing),
    Catalogue(CatalogueCall),
    Book,
    ListCheck(ListCheck),
}

// The number of a call that there is not.
#[derive(Clone, Copy)]
pub struct NoSuchCall;

impl TryFrom<u32> for Call {
    type Error = NoSuchCall;

    ghost try_from_gives = { Asks };

    fn try_from(number: u32) -> Result<Self, NoSuchCall> {
        match number {
            1 => Ok(Call::Question(Question::CheckDrawing)),
            2 => Ok(Call::Question(Question::CheckSurvey)),
            3 => Ok(Call::Question(Question::CheckCode)),
            4 => Ok(Call::Question(Question::IsLeast)),
            5 => Ok(Call::Question(Question::Compare)),
            6 => Ok(Call::Question(Question::Same)),
            7 => Ok(Call::Fetch),
            8 => Ok(Call::Writing(Writing::CodeDrawing)),
            9 => Ok(Call::Writing(Writing::Decode)),
            10 => Ok(Call::Writing(Writing::MatchDrawing)),
            11 => Ok(Call::Catalogue(CatalogueCall::Asked)),
            12 => Ok(Call::Catalogue(CatalogueCall::Usual)),
            13 => Ok(Call::Book),
            14 => Ok(Call::ListCheck(ListCheck::Asked)),
            15 => Ok(Call::ListCheck(ListCheck::Usual)),
            16 => Ok(Call::ListCheck(ListCheck::Four)),
            _ => Err(NoSuchCall),
        }
    }
}
