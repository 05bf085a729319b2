// A survey: drawings one after another, without a header.
ghost use Rattle.std.specs.Prelude.{◌≡◌};
ghost use Rattle.graphs.specs.Survey.{drawing_count};

use crate::drawing::Drawing;

// The number of whole drawings that a survey has.
#[derive(Drop)]
pub struct Survey {
    pub drawings: usize,
}

impl Survey {
    pub const LEAST_DRAWINGS: usize = 1;

    pub const MOST_DRAWINGS: usize = 32;

    // As many drawings as the bytes have room for, whether or not that is within the limits.
    pub fn counted(survey: &[u8]) -> Self
        ensures { result.drawings ≡ drawing_count survey.now }
    {
        Survey {
            drawings: survey.len() / Drawing::BYTES,
        }
    }
}
