// The reader's calls, with their answers printed: a survey is opened once, and then fetched from.
use reader::reader::{Opened, Reader};
use transcript::answer::checked;
use transcript::bytes::two_bytes;
use transcript::print::{print_answer, print_bytes};

// Prints what opening said and what fetching drawing d gives, no bytes where it is refused.
fn fetch(opened: Opened<'_>, d: usize) {
    let fetched = opened.reader.fetch(d);
    print_answer(b" opened", checked(opened.checked));
    print_answer(b" fetched", checked(fetched.map(|_| ())));
    print_bytes(fetched.unwrap_or(&[]));
}

// Opens a survey, and fetches the three drawings whose numbers are listed.
pub fn fetch_listed(survey: &[u8], drawings: &[u8]) {
    let opened = Reader::open(survey);
    for at in [0, 2, 4] {
        fetch(opened, usize::from(two_bytes(drawings, at)));
    }
}
