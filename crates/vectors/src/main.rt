// Vectors: makes the calls of the library that standard input lists, and prints for each what it answers and leaves in the
// lent bytes. The list and what has to be printed are made by separate code, in tests/differential.
#![tactic(auto)]

mod list; // list.rt: the list of calls

use crate::list::run_all;

// The list has three pages, and all but the last are full.
fn main() {
    let mut page = io::large_buffer();
    for _ in 0..3 {
        let n = io::read_full(0, &mut page);
        run_all(&page[..n]);
    }
}
