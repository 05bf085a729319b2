// An answer and bytes as text: decimal numbers, each after a blank.
use crate::answer::Answer;
use records::refusal::Fault;

// As many bytes as a catalogue's entry has.
const LINE_BYTES: usize = 43;

fn print_number(value: u64) {
    io::write_all(1, b" ");
    io::print_decimal(1, value);
}

// Prints a line: a name and the three numbers of an answer.
pub fn print_answer(name: &[u8], answer: Result<Answer, Fault>) {
    let answer = answer.unwrap_or_else(Answer::from);
    io::write_all(1, name);
    print_number(u64::from(answer.refusal));
    print_number(answer.at as u64);
    print_number(answer.count as u64);
    io::write_all(1, b"\n");
}

fn print_line(bytes: &[u8]) {
    for &byte in bytes {
        print_number(u64::from(byte));
    }
    io::write_all(1, b"\n");
}

// Prints lines of so many bytes; the last one is shorter, and may be empty.
pub fn print_bytes(bytes: &[u8]) {
    let lines = bytes.chunks_exact(LINE_BYTES);
    let last = lines.remainder();
    for line in lines {
        print_line(line);
    }
    print_line(last);
}
