// The labels of a drawing's cables. One number stands for a cable seen from one end, 1 + 256 * cable kind + kind of the
// other end, so that the order of labels is that of records; 0 is no cable.
ghost use Rattle.std.specs.Prelude.{◌≡◌, ◌-◌, ◌/◌, ◌%◌, ◌<◌, ◌≤◌};
ghost use Rattle.graphs.specs.Drawing.{drawing_in, drawing_refusal};
ghost use Rattle.codes.specs.Code.{decoded, code_records, code_refusal};
ghost use Rattle.codes.specs.BranchState.{label_of, label_at, Labels};
ghost use Rattle.records.specs.DrawingCables.{as_cable};
ghost use Rattle.tables.specs.Tables.{put_cable};

use code_records::record::Record;
use records::cable::Cable;
use records::code::Code;
use records::drawing::Drawing;

// Ten rows of ten labels: one for each pair of devices.
pub const CELLS: usize = 100;

// Kinds are bytes.
const KINDS: u32 = 256;

// The label of a cable of kind c to a device of kind kj.
pub fn label_of(c: u8, kj: u8) -> u32
    ensures { (result ≡ label_of c kj) × (kj < 256) }
{
    1 + KINDS * u32::from(c) + u32::from(kj)
}

// The label of the cable from device u to device v.
pub fn label(table: &[u32; CELLS], u: usize, v: usize) -> u32
    requires { (u < 10) × (v < 10) }
    ensures { result ≡ label_at table.now u v }
{
    table[Drawing::MOST_DEVICES * u + v]
}

// The kind of the cable that a label stands for.
pub fn cable_kind(l: u32) -> u8
    requires { (0 < l) × (l ≤ 65536) }
    ensures { result ≡ (l - 1) / 256 }
{
    ((l - 1) / KINDS) as u8
}

// The kind of the device at the cable's other end.
pub fn other_kind(l: u32) -> u8
    requires { 0 < l }
    ensures { result ≡ (l - 1) % 256 }
{
    ((l - 1) % KINDS) as u8
}

// Puts a cable into a table both ways round; ka and kb are the kinds of its ends.
fn put_cable(table: &mut [u32; CELLS], cable: Cable, ka: u8, kb: u8)
    requires { (cable.a < 10) × (cable.b < 10) × (cable.kind < 256) }
    ensures { table.new ≡ put_cable table.old (as_cable cable) ka kb }
{
    let a = cable.a;
    let b = cable.b;
    let kind = cable.kind as u8;
    table[Drawing::MOST_DEVICES * a + b] = label_of(kind, kb);
    table[Drawing::MOST_DEVICES * b + a] = label_of(kind, ka);
}

// The labels of an accepted drawing record.
pub fn labels_of_drawing(drawing: &[u8]) -> [u32; CELLS]
    requires { drawing_refusal drawing.now ≡ 0 }
    ensures { Labels (drawing_in drawing.now) result }
{
    let mut table = [0; CELLS];
    let m = Drawing::counted(drawing).cables;
    for c in 0..m {
        let cable = Cable::at(drawing, c);
        let a = cable.a;
        let b = cable.b;
        put_cable(
            &mut table,
            cable,
            drawing[Drawing::KINDS_AT + a],
            drawing[Drawing::KINDS_AT + b],
        );
    }
    table
}

// The labels of what an accepted code describes. Each record tells the kinds of both its ends.
pub fn labels_of_code(code: &[u8]) -> [u32; CELLS]
    requires { code_refusal code.now ≡ 0 }
    ensures { Labels (decoded (code_records code.now)) result }
{
    let mut table = [0; CELLS];
    for k in 0..code.len() / Code::RECORD_BYTES {
        let r = Record::at(code, k);
        let cable = Cable {
            a: usize::from(r.i),
            b: usize::from(r.j),
            kind: usize::from(r.c),
        };
        put_cable(&mut table, cable, r.ki, r.kj);
    }
    table
}
