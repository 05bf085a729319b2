// One entry of a catalogue, written into its own bytes of the output.
ghost use Rattle.std.specs.Prelude.{◌≡◌, ◌+◌, ◌*◌, ◌≤◌, length};
ghost use Rattle.laws.specs.PutRecords.{put_record};
ghost use Rattle.growth.specs.Sizes.{entry_size};
ghost use Rattle.entries.specs.Heads.{HeadFits, headed};

use records::code::Code;
use records::entry::Entry;

// The bytes that an entry has for records.
const RECORDS: usize = Entry::EXAMPLE_AT - Entry::RECORDS_AT;

// Writes the entry of a code with these numbers: two numbers, the records, zeros up to the example, then the example. The bytes lent
// are the entry's own, so it cannot write into another. So many bytes are copied as it has for records, whatever the cables: a number that is
// known beforehand needs no call of C's library.
pub(crate) fn write_entry(code: &[u8; Code::BYTES], head: Entry, output: &mut [u8])
    requires { HeadFits code.now head × (length output.old ≡ entry_size) }
    ensures { output.new ≡ headed code.now head }
{
    let end = Entry::RECORDS_AT + Code::RECORD_BYTES * head.cables;
    output[0] = head.cables as u8;
    output[1] = head.support as u8;
    output[Entry::RECORDS_AT..Entry::EXAMPLE_AT].copy_from_slice(&code[..RECORDS]);
    output[end..Entry::EXAMPLE_AT].fill(0);
    output[Entry::EXAMPLE_AT] = head.example as u8;
}

// Writes the entry of a code with these numbers as entry k of the output: its own part of the output is lent on, from its offset.
pub fn put_entry(code: &[u8; Code::BYTES], head: Entry, k: usize, output: &mut [u8])
    requires { HeadFits code.now head × (entry_size * k + entry_size ≤ length output.old) }
    ensures { output.new ≡ put_record entry_size k (headed code.now head) output.old }
{
    let at = Entry::BYTES * k;
    let end = at + Entry::BYTES;
    write_entry(code, head, &mut output[at..end]);
}
