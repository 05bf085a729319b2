// The program: reads a survey from standard input and prints its usual catalogue. What fails is told on standard error.
#![tactic(auto)]

mod text; // text.rt: the text of a survey's usual catalogue

use survey_input::input::{INPUT_BYTES, ReadFailed, read_survey};
use text::{ENTRY_BYTES, TEXT_BYTES, whole_text};

const STDOUT: i32 = 1;

const STDERR: i32 = 2;

// Prints the text of the survey. No contract can say what is written: what is handed over is the text's first n bytes.
fn print(survey: &[u8]) {
    let mut entries = [0u8; ENTRY_BYTES];
    let mut text = [0u8; TEXT_BYTES];
    let n = whole_text(survey, &mut entries, &mut text);
    if !io::write_all(STDOUT, &text[..n]) {
        tell(b"catalogue: writing failed\n");
    }
}

// Tells on standard error what failed; where that fails too, nobody is left to tell.
fn tell(failure: &[u8]) {
    io::write_all(STDERR, failure);
}

fn main(rt: HostRuntime) {
    let mut input = [0u8; INPUT_BYTES];
    match read_survey(&mut rt.stdin(), &mut input) {
        Ok(n) => print(&input[..n]),
        Err(ReadFailed) => tell(b"catalogue: reading failed\n"),
    }
}
