// Decoding: the drawing that a code describes, as its record of 73 bytes.
ghost use Rattle.std.specs.Prelude.{◌≡◌, ◌<◌, length};
ghost use Rattle.code_records.specs.Records.{as_rec};
ghost use Rattle.decoding.specs.Decoding.{steps_bytes, decoded_bytes, DecodeSays, CanWriteSteps, CanWrite, CanWriteRecord, write_device, write_cable, write_record};

use code_checks::check::{check_code, is_lone};
use code_records::record::Record;
use records::bytes::clear;
use records::code::Code;
use records::drawing::Drawing;
use records::refusal::Refusal;

// The next device of a record under work: it has as many as its number says.
fn write_device(drawing: &mut [u8], v: u8, kind: u8)
    requires { (v < 10) × (length drawing.old ≡ 73) }
    ensures { drawing.new ≡ write_device v kind drawing.old }
{
    drawing[0] = v + 1;
    drawing[Drawing::KINDS_AT + usize::from(v)] = kind;
}

// The next cable of a record under work, ends as i then j: it has k.
fn write_cable(drawing: &mut [u8], k: usize, next: Record)
    requires { (k < 20) × (length drawing.old ≡ 73) }
    ensures { drawing.new ≡ write_cable k (as_rec next) drawing.old }
{
    let at = Drawing::CABLES_AT + Drawing::CABLE_BYTES * k;
    drawing[1] = (k + 1) as u8;
    drawing[at] = next.i;
    drawing[at + 1] = next.j;
    drawing[at + 2] = next.c;
}

// Record k of a code. A forward one names a new device, and the first one names device 0 too.
#[tactic(auto, unfolding(crate::specs::Decoding::write_first, crate::specs::Decoding::write_forward))]
fn write_record(drawing: &mut [u8], k: usize, next: Record)
    requires { CanWriteRecord k (as_rec next) drawing.old }
    ensures { drawing.new ≡ write_record k (as_rec next) drawing.old }
{
    if k == 0 {
        write_device(drawing, 0, next.ki);
    }
    if next.i < next.j {
        write_device(drawing, next.j, next.kj);
    }
    write_cable(drawing, k, next);
}

// What a DFS code draws, over zeros.
#[tactic(auto, using(crate::specs::DecodingLaws::decoded_start))]
fn write_steps(code: &[u8], drawing: &mut [u8])
    requires { CanWriteSteps code.now drawing.old }
    ensures { drawing.new ≡ steps_bytes code.now }
{
    // By number and not by chunks of five: a cable stands at its record's number, and `Record::at` takes it.
    for k in 0..code.len() / Code::RECORD_BYTES {
        write_record(drawing, k, Record::at(code, k));
    }
}

// The whole record of the drawing: unused bytes stay zero, and so does the crane.
#[tactic(auto, using(crate::specs::DecodingLaws::two_ways))]
fn write_drawing(code: &[u8], drawing: &mut [u8])
    requires { CanWrite code.now drawing.old }
    ensures { drawing.new ≡ decoded_bytes code.now }
{
    clear(drawing);
    if is_lone(code) {
        let only = Record::at(code, 0);
        write_device(drawing, 0, only.ki);
    } else {
        write_steps(code, drawing);
    }
}

// The number of bytes written: devices are numbered as the code numbers them, cables stand in the order of its records.
pub fn decode(code: &[u8], output: &mut [u8]) -> Result<usize, Refusal>
    ensures { DecodeSays code.now result output.old output.new }
{
    check_code(code)?;
    if output.len() < Drawing::BYTES {
        return Err(Refusal::OutputLength);
    }
    write_drawing(code, &mut output[..Drawing::BYTES]);
    Ok(Drawing::BYTES)
}
