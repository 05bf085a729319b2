// A code that grows in place: the record at a place, read off from what is held, and the code with that record more.
ghost use Rattle.std.specs.Prelude.{◌≡◌, ◌<◌, ◌≤◌};
ghost use Rattle.code_records.specs.Records.{as_rec};
ghost use Rattle.extending.specs.HeldCode.{labelled, CanReadOff, ReadOff, CanAppend, Appended};

use code_records::record::{Record, put_record};
use label_ranks::ranks::ALPHABET;
use records::code::Code;
use tables::table::{cable_kind, other_kind};

// Rows below this one are of backward records, by the device that they go to.
const BACKWARD_ROWS: usize = 8;

// The row of the forward records from device 0; those from higher devices have lower rows.
const LAST_ROW: usize = 15;

// The record from device i, of kind ki, to device j along a label.
fn labelled(i: usize, j: usize, ki: u8, l: u32) -> Record
    requires { (i < 256) × (j < 256) × (0 < l) × (l ≤ 65536) }
    ensures { as_rec result ≡ labelled i j ki l }
{
    Record {
        i: i as u8,
        j: j as u8,
        ki,
        c: cable_kind(l),
        kj: other_kind(l),
    }
}

// The record at a place after the records held: a backward one from the newest device, or a forward one to a new device.
// Where no record is held yet, device 0 alone is there, of this kind.
pub fn record_at_place(
    kinds: &[u8; 10],
    devices: usize,
    kind: u8,
    alphabet: &[u32; ALPHABET],
    n: usize,
    place: usize,
) -> Record
    requires { CanReadOff kinds.now devices kind alphabet.now n place }
    ensures { ReadOff kinds.now devices kind alphabet.now n place (as_rec result) }
{
    let row = place / n;
    let l = alphabet[place % n];
    if devices == 0 {
        return labelled(0, 1, kind, l);
    }
    if row < BACKWARD_ROWS {
        let newest = devices - 1;
        return labelled(newest, row, kinds[newest], l);
    }
    let from = LAST_ROW - row;
    labelled(from, devices, kinds[from], l)
}

// The code grown by a record that is a permitted step: the number of its devices. A forward record goes to a new device, and the
// first starts from one too. Nothing is ever taken back: whoever writes later overwrites, and what stands behind the records so
// far plays no part.
pub fn append(
    code: &mut [u8; Code::BYTES],
    kinds: &mut [u8; 10],
    cables: usize,
    devices: usize,
    next: Record,
) -> usize
    requires { CanAppend code.old kinds.old cables devices (as_rec next) }
    ensures { Appended code.old kinds.old cables devices (as_rec next)
        code.new kinds.new result }
{
    put_record(code, cables, next);
    if next.j <= next.i {
        return devices;
    }
    let i = next.i as usize;
    let j = next.j as usize;
    kinds[i] = next.ki;
    kinds[j] = next.kj;
    j + 1
}
