// An entry of a catalogue: its number of cables, its support, its code's records, with zeros up to the most of them, and its example.
ghost use Rattle.std.specs.Prelude.{◌≡◌};

use crate::code::Code;

// The numbers of an entry: the two that it begins with, and the one that it ends with.
#[derive(Clone, Copy)]
pub struct Entry {
    pub cables: usize,
    pub support: usize,
    pub example: usize,
}

impl Entry {
    pub const BYTES: usize = Entry::EXAMPLE_AT + 1;

    pub const MOST_RECORDS: usize = 8;

    pub const RECORDS_AT: usize = 2;

    pub const EXAMPLE_AT: usize = Entry::RECORDS_AT + Entry::MOST_RECORDS * Code::RECORD_BYTES;

    // An entry for a pattern of so many cables with so much support and this drawing as its example; both are 0 in a book.
    pub fn new(cables: usize, support: usize, example: usize) -> Self
        ensures { result ≡ record { cables = cables; support = support; example = example } }
    {
        Entry {
            cables,
            support,
            example,
        }
    }
}
