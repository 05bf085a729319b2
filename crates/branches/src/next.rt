// The next record of a code: the first one, along a cable, and the one that an extension stands for. The kind of i is that of its
// device in the drawing.
ghost use Rattle.std.specs.Prelude.{◌≡◌, Bool, List, ℕ, ◌<◌, ◌≤◌};
ghost use Rattle.graphs.specs.Drawing.{devices, kind, drawing_in, drawing_refusal};
ghost use Rattle.code_records.specs.Records.{as_rec};
ghost use Rattle.branches.specs.Branches.{in_place};
ghost use Rattle.branches.specs.Ways.{chord_with, edge_with};
ghost use Rattle.branches.specs.NextRecords.{first_along, MakesFirst, found_record, MakesRecord};

use crate::branch::device_at;
use crate::extension::Extension;
use code_records::record::Record;
use records::drawing::Drawing;
use tables::table::{CELLS, cable_kind, label, other_kind};

// The kind of a device, from its byte of the drawing's record.
fn kind_of(drawing: &[u8], v: usize) -> u8
    requires { (drawing_refusal drawing.now ≡ 0) × (v < devices (drawing_in drawing.now)) }
    ensures { result ≡ kind (drawing_in drawing.now) v }
{
    drawing[Drawing::KINDS_AT + v]
}

// The first record, along the cable from device u to device w.
pub fn first_record(drawing: &[u8], table: &[u32; CELLS], u: usize, w: usize) -> Record
    requires { MakesFirst drawing.now table.now u w }
    ensures { as_rec result ≡ first_along (drawing_in drawing.now) table.now u w }
{
    let l = label(table, u, w);
    Record {
        i: 0,
        j: 1,
        ki: kind_of(drawing, u),
        c: cable_kind(l),
        kj: other_kind(l),
    }
}

// The backward record to place q along a label. The kind of the path's end, ki, is the caller's to know.
fn chord_record(
    path: &[u8; Drawing::MOST_DEVICES],
    count: usize,
    q: usize,
    l: u32,
    ki: u8,
) -> Record
    requires { (q < count) × (count ≤ 10) × (0 < l) × (l ≤ 65536) }
    ensures { (numbers : List ℕ) (used : List Bool) (given low : ℕ)
        → as_rec result ≡ chord_with (in_place numbers used path.now count given low) q l ki }
{
    Record {
        i: path[count - 1],
        j: path[q],
        ki,
        c: cable_kind(l),
        kj: other_kind(l),
    }
}

// The forward record from place q along a label. The kind of the device at that place, ki, is the caller's to know.
fn edge_record(path: &[u8; Drawing::MOST_DEVICES], given: usize, q: usize, l: u32, ki: u8) -> Record
    requires { (q < 10) × (given ≤ 10) × (0 < l) × (l ≤ 65536) }
    ensures { (numbers : List ℕ) (used : List Bool) (count low : ℕ)
        → as_rec result ≡ edge_with (in_place numbers used path.now count given low) q l ki }
{
    Record {
        i: path[q],
        j: given as u8,
        ki,
        c: cable_kind(l),
        kj: other_kind(l),
    }
}

// The record that an extension stands for. A branch that leaves a cable unlisted goes on, so that the record made up for nothing
// is never compared.
pub fn next_record(
    drawing: &[u8],
    numbers: &[u8; Drawing::MOST_DEVICES],
    path: &[u8; Drawing::MOST_DEVICES],
    count: usize,
    given: usize,
    found: Option<Extension>,
) -> Record
    requires { MakesRecord drawing.now numbers.now path.now count given found }
    ensures { (used : List Bool) (low : ℕ) → as_rec result ≡ found_record (drawing_in drawing.now)
        (in_place numbers.now used path.now count given low) found }
{
    let Some(extension) = found else {
        return Record {
            i: 0,
            j: 0,
            ki: 0,
            c: 0,
            kj: 0,
        };
    };
    match extension {
        Extension::Chord(q, l) => {
            let end = count - 1;
            chord_record(
                path,
                count,
                q,
                l,
                kind_of(drawing, device_at(numbers, path, end)),
            )
        }
        Extension::Edge(q, l) => edge_record(
            path,
            given,
            q,
            l,
            kind_of(drawing, device_at(numbers, path, q)),
        ),
    }
}
