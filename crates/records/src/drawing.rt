// A drawing's record: n, m, ten device kinds, twenty cables of three bytes (one end, other end, cable kind), the number of its crane.
ghost use Rattle.std.specs.Prelude.{◌≡◌};
ghost use Rattle.graphs.specs.Drawing.{cables_fit};
ghost use Rattle.records.specs.Refusals.{checked_number};
ghost use Rattle.records.specs.Drawings.{counts_in, counts_refusal};

use crate::bytes::byte_or_zero;
use crate::refusal::Refusal;

// The counts that a record gives: its devices, n, and its cables, m.
#[derive(Clone, Copy)]
pub struct Drawing {
    pub devices: usize,
    pub cables: usize,
}

impl Drawing {
    pub const BYTES: usize = 73;

    pub const LEAST_DEVICES: usize = 1;

    pub const MOST_DEVICES: usize = 10;

    pub const LEAST_CABLES: usize = 1;

    pub const MOST_CABLES: usize = 20;

    pub const KINDS_AT: usize = 2;

    pub const CABLES_AT: usize = 12;

    pub const CABLE_BYTES: usize = 3;

    pub const CRANE_AT: usize = 72;

    // What the first two bytes say, whether or not it is within the limits; a byte that is not there counts as 0.
    pub fn counted(drawing: &[u8]) -> Self
        ensures { result ≡ counts_in drawing.now }
    {
        Drawing {
            devices: byte_or_zero(drawing, 0),
            cables: byte_or_zero(drawing, 1),
        }
    }

    // Whether so many devices may have so many cables: a lone one has none.
    fn cables_fit(self) -> bool
        ensures { result ≡ cables_fit self.devices self.cables }
    {
        if self.devices == 1 {
            return self.cables == 0;
        }
        Drawing::LEAST_CABLES <= self.cables && self.cables <= Drawing::MOST_CABLES
    }

    // The first reason to refuse the counts, the devices' before the cables'.
    pub fn check_counts(self) -> Result<(), Refusal>
        ensures { checked_number result ≡ counts_refusal self }
    {
        if self.devices < Drawing::LEAST_DEVICES || Drawing::MOST_DEVICES < self.devices {
            return Err(Refusal::DeviceCount);
        }
        if !self.cables_fit() {
            return Err(Refusal::CableCount);
        }
        Ok(())
    }
}
