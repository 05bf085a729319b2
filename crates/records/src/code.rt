// A code under work: its records, and the rightmost path that the next record goes by.
ghost use Rattle.records.specs.Codes.{HoldsNothing};

use crate::drawing::Drawing;

// The bytes of `count` records, and the `path_count` devices of the rightmost path, from device 0 on.
#[derive(Clone, Copy)]
pub struct Code {
    pub records: [u8; Code::BYTES],
    pub count: usize,
    pub path: [u8; Drawing::MOST_DEVICES],
    pub path_count: usize,
}

impl Code {
    pub const MOST_RECORDS: usize = 20;

    pub const RECORD_BYTES: usize = 5;

    pub const BYTES: usize = Code::MOST_RECORDS * Code::RECORD_BYTES;

    // No record, and no path yet.
    pub fn new() -> Self
        ensures { HoldsNothing result }
    {
        Code {
            records: [0; Code::BYTES],
            count: 0,
            path: [0; Drawing::MOST_DEVICES],
            path_count: 0,
        }
    }
}
