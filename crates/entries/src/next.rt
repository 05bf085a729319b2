// The next entry of a walk: what is done with it. Where a list is written it goes into the output, behind those before it; where one is
// checked it is held against the bytes that stand there. This is all in which the two differ.
ghost use Rattle.std.specs.Prelude.{true, false, ◌*◌, ◌≤◌, length};
ghost use Rattle.growth.specs.Sizes.{entry_size};
ghost use Rattle.growth.specs.Page.{page, EntryHanded};
ghost use Rattle.entries.specs.Heads.{HeadFits, headed};

use crate::entry::{put_entry, write_entry};
use records::code::Code;
use records::entry::Entry;

// Whether an entry stands as entry k of a list: it is made as it would be written.
fn entry_stands(code: &[u8; Code::BYTES], head: Entry, k: usize, list: &[u8]) -> bool
    requires { HeadFits code.now head × (entry_size * k ≤ length list.now) }
    ensures { EntryHanded true (headed code.now head) k list.now result list.now }
{
    let at = Entry::BYTES * k;
    if list.len() - at < Entry::BYTES {
        return false;
    }
    let mut own = [0; Entry::BYTES];
    write_entry(code, head, &mut own);
    let end = at + Entry::BYTES;
    own[..] == list[at..end]
}

// Writes an entry as entry k of the output, if there is room for it.
pub fn write_next(code: &[u8; Code::BYTES], head: Entry, k: usize, output: &mut [u8]) -> bool
    requires { HeadFits code.now head × (entry_size * k ≤ length output.old) }
    ensures { EntryHanded false (headed code.now head) k output.old result output.new }
{
    if output.len() - Entry::BYTES * k < Entry::BYTES {
        return false;
    }
    put_entry(code, head, k, output);
    true
}

// What is done with entry k: it is written, or held against the list that is given.
pub fn next_entry(
    code: &[u8; Code::BYTES],
    head: Entry,
    k: usize,
    checking: bool,
    given: &[u8],
    output: &mut [u8],
) -> bool
    requires { HeadFits code.now head × (entry_size * k ≤ length (page checking given.now output.old)) }
    ensures { EntryHanded checking (headed code.now head) k
        (page checking given.now output.old) result (page checking given.now output.new) }
{
    if checking {
        return entry_stands(code, head, k, given);
    }
    write_next(code, head, k, output)
}
