// The tables of labels of a survey's drawings: one of a hundred labels for each, one after another; and their slots.
ghost use Rattle.std.specs.Prelude.{◌≡◌, ◌<◌, length};
ghost use Rattle.laws.specs.Rows.{row};
ghost use Rattle.graphs.specs.Survey.{bytes_refusal};
ghost use Rattle.codes.specs.BranchState.{label_at};
ghost use Rattle.laws.specs.PutRecords.{put_record};
ghost use Rattle.growth.specs.Sizes.{tables_size};
ghost use Rattle.walks.specs.Slots.{slot_at, drawing_slots, drawing_ends};
ghost use Rattle.walks.specs.SlotsMade.{LowLabels};
ghost use Rattle.walks.specs.DrawingTables.{DrawingPut, Tables};

use neighbours::slots::{ends_of, slots_of};
use records::drawing::Drawing;
use records::survey::Survey;
use tables::table::{CELLS, labels_of_drawing};

// For each drawing that a survey may have a table of labels; then the slots of each; then where the slots' groups end; then the
// bit of each label, where the survey has few labels; then one table for all drawings, of the sheets of one crane.
pub const TABLES: usize = (4 * Survey::MOST_DRAWINGS + 1) * CELLS;

// Puts a table into place d: first the tables of labels have theirs, then the slots, then the ends, then
// the bits, then the sheets.
pub fn put_table(table: &[u32; CELLS], d: usize, labels: &mut [u32; TABLES])
    requires { (d < 129) × (length table.now ≡ 100) × (length labels.old ≡ tables_size) }
    ensures { labels.new ≡ put_record 100 d table.now labels.old }
{
    let at = CELLS * d;
    labels[at..at + CELLS].copy_from_slice(table);
}

// Puts a drawing's table in its place, with its slots and where their groups end.
fn put_drawing(table: &[u32; CELLS], d: usize, labels: &mut [u32; TABLES])
    requires { (d < 32) × (length table.now ≡ 100) × (length labels.old ≡ tables_size) × LowLabels table.now }
    ensures { DrawingPut table.now d labels.old labels.new }
{
    let slots = slots_of(table);
    let ends = ends_of(&slots);
    put_table(table, d, labels);
    put_table(&slots, Survey::MOST_DRAWINGS + d, labels);
    put_table(&ends, 2 * Survey::MOST_DRAWINGS + d, labels);
}

// The tables of all drawings of an accepted survey, and their slots. What lies past the last is as it was.
pub fn fill_labels(survey: &[u8], labels: &mut [u32; TABLES])
    requires { ((bytes_refusal survey.now).number ≡ 0) × (length labels.old ≡ tables_size) }
    ensures { Tables survey.now labels.new }
{
    let drawings = Survey::counted(survey).drawings;
    for d in 0..drawings {
        let at = Drawing::BYTES * d;
        let end = at + Drawing::BYTES;
        let table = labels_of_drawing(&survey[at..end]);
        put_drawing(&table, d, labels);
    }
}

// The label of the cable from device u to device v of drawing d, with no copy of its table.
pub fn label_in(labels: &[u32; TABLES], d: usize, u: usize, v: usize) -> u32
    requires { (d < 32) × (u < 10) × (v < 10) }
    ensures { result ≡ label_at (row 100 d labels.now) u v }
{
    labels[CELLS * d + (Drawing::MOST_DEVICES * u + v)]
}

// Slot k of device u of drawing d: 256 times a label and the device that it leads to, or 0 for none.
pub fn slot_in(labels: &[u32; TABLES], d: usize, u: usize, k: usize) -> u32
    requires { (d < 32) × (u < 10) × (k < 10) }
    ensures { result ≡ slot_at (drawing_slots labels.now d) u k }
{
    labels[CELLS * (Survey::MOST_DRAWINGS + d) + (Drawing::MOST_DEVICES * u + k)]
}

// Where the group of slot k ends: the slots up to there have one label.
pub fn group_end(labels: &[u32; TABLES], d: usize, u: usize, k: usize) -> usize
    requires { (d < 32) × (u < 10) × (k < 10) }
    ensures { result ≡ slot_at (drawing_ends labels.now d) u k }
{
    labels[CELLS * (2 * Survey::MOST_DRAWINGS + d) + (Drawing::MOST_DEVICES * u + k)] as usize
}
