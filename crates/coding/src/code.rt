// The least code of a drawing, written in front of the lent bytes.
ghost use Rattle.std.specs.Prelude.{◌≡◌, cond, ◌*◌, ◌≤◌, eqb, length, get_or};
ghost use Rattle.graphs.specs.Drawing.{drawing_in, drawing_refusal};
ghost use Rattle.codes.specs.SectionCode.{lone_code, LeastSection};
ghost use Rattle.records.specs.Codes.{code_bytes};
ghost use Rattle.laws.specs.Lent.{in_front};
ghost use Rattle.readings.specs.Readings.{held_records};
ghost use Rattle.coding.specs.CodeDrawing.{CodeSays};

use checks::drawing::check_drawing;
use code_records::record::Record;
use least_code::search::least_code;
use readings::reading::with_record;
use records::code::Code;
use records::drawing::Drawing;
use records::refusal::Refusal;

// The records of a code, in front of what is lent; the bytes behind them keep their content.
fn write_code(code: Code, output: &mut [u8])
    requires { (code.count ≤ 20) × (5 * code.count ≤ length output.old) }
    ensures { output.new ≡ in_front (code_bytes code) output.old }
{
    let end = Code::RECORD_BYTES * code.count;
    output[..end].copy_from_slice(&code.records[..end]);
}

// The code of a lone device: one record, from device 0 to itself.
fn lone_code(kind: u8) -> Code
    ensures { held_records result ≡ lone_code kind }
{
    let only = Record {
        i: 0,
        j: 0,
        ki: kind,
        c: 0,
        kj: kind,
    };
    with_record(Code::new(), only)
}

// The least code of an accepted drawing of m cables.
fn section_code(drawing: &[u8], m: usize) -> Code
    requires { (drawing_refusal drawing.now ≡ 0) × (m ≡ get_or drawing.now 1 0) }
    ensures { LeastSection (drawing_in drawing.now) (held_records result) }
{
    if m == 0 {
        return lone_code(drawing[Drawing::KINDS_AT]);
    }
    least_code(drawing, m)
}

// How many records the code of a drawing of m cables has: one for each, and one where there is none.
fn records_of(m: usize) -> usize
    ensures { result ≡ cond (eqb m 0) 1 m }
{
    m.max(1)
}

// The least code of a drawing: refusals 1 to 8, then 15, else the number of bytes written.
pub fn code_drawing(drawing: &[u8], output: &mut [u8]) -> Result<usize, Refusal>
    ensures { CodeSays drawing.now result output.old output.new }
{
    check_drawing(drawing)?;
    let m = Drawing::counted(drawing).cables;
    let bytes = Code::RECORD_BYTES * records_of(m);
    if output.len() < bytes {
        return Err(Refusal::OutputLength);
    }
    write_code(section_code(drawing, m), output);
    Ok(bytes)
}
