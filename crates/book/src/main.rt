// The program: prints the book that its arguments ask for. What fails is told on standard error.
#![tactic(auto)]

ghost use Rattle.std.specs.Prelude.{◌≤◌, length};

mod settings; // settings.rt: what the arguments ask for
mod text; // text.rt: the text of a book

use settings::{MOST_DIGITS, Request, read_request};
use std::env::{Env, FillError};
use text::{BOOK_BYTES, BOOK_TEXT_BYTES, whole_book};

const STDOUT: i32 = 1;

const STDERR: i32 = 2;

// One word more than the program's name and three numbers: whether there are more still is all the same.
const MOST_WORDS: usize = 5;

// Argument i, put into the lent bytes: empty where it is missing, or longer than they are. That is no number either.
fn word<'a, R: Env>(rt: &R, i: usize, bytes: &'a mut [u8]) -> &'a [u8]
    ensures { length result.now ≤ length bytes.old }
{
    let n = rt.arg(i, bytes).unwrap_or(0);
    &bytes[..n]
}

// How many words the program was called with, its name among them, up to MOST_WORDS.
fn word_count<R: Env>(rt: &R) -> usize {
    let mut bytes = [0u8; MOST_DIGITS];
    (0..MOST_WORDS)
        .position(|i| matches!(rt.arg(i, &mut bytes), Err(FillError::NotPresent)))
        .unwrap_or(MOST_WORDS)
}

// Prints the text of the book. No contract can say what is written: what is handed over is the text's first n bytes.
fn print(request: Request) {
    let mut entries = [0u8; BOOK_BYTES];
    let mut text = [0u8; BOOK_TEXT_BYTES];
    let n = whole_book(request, &mut entries, &mut text);
    if !io::write_all(STDOUT, &text[..n]) {
        io::write_all(STDERR, b"book: writing failed\n");
    }
}

fn main(rt: HostRuntime) {
    let mut first = [0u8; MOST_DIGITS];
    let mut second = [0u8; MOST_DIGITS];
    let mut third = [0u8; MOST_DIGITS];
    let first = word(&rt, 1, &mut first);
    let second = word(&rt, 2, &mut second);
    let third = word(&rt, 3, &mut third);
    match read_request(word_count(&rt), first, second, third) {
        Some(request) => print(request),
        None => {
            io::write_all(
                STDERR,
                b"book: give three numbers: kinds of devices, kinds of cables, most cables\n",
            );
        }
    }
}
