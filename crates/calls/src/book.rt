// The call that writes a book, with its answer as numbers.
use pattern_book::book::write_book;
use records::refusal::Fault;
use transcript::answer::Answer;
use transcript::bytes::two_bytes;

// The first argument is the numbers of kinds, of devices and of cables.
pub fn write_kinds(kinds: &[u8], limit: u32, output: &mut [u8]) -> Result<Answer, Fault> {
    let devices = u32::from(two_bytes(kinds, 0));
    let cables = u32::from(two_bytes(kinds, 2));
    Ok(Answer::counted(write_book(devices, cables, limit, output)?))
}
