// The labels of a survey's drawings as bits, where the survey has few labels: that of a label is the bit of its number.
ghost use Rattle.std.specs.Prelude.{◌≡◌, List, ℕ, ◌+◌, ◌≤◌, ◌<◌, get_or};
ghost use Rattle.laws.specs.Rows.{row};
ghost use Rattle.graphs.specs.Survey.{bytes_refusal};
ghost use Rattle.codes.specs.BranchState.{label_at};
ghost use Rattle.growth.specs.Places.{Ranks};
ghost use Rattle.walks.specs.LabelMarks.{drawings_of};
ghost use Rattle.walks.specs.DrawingTables.{Tables};
ghost use Rattle.walks.specs.LabelBits.{label_bit, drawing_bits, BitsNoted, BitsOfRow};

use crate::labels::{TABLES, put_table};
use label_ranks::ranks::LABELS;
use records::drawing::Drawing;
use records::survey::Survey;
use tables::table::CELLS;

// The most labels that a number has bits for.
pub const FEW: usize = 32;

// The bit of a label, or 0 for none.
fn bit_of(rank: &[u16; LABELS], l: u32) -> u32
    requires { (l ≤ 65536) × (0 < l → get_or rank.now l 0 < 32) }
    ensures { result ≡ label_bit rank.now l }
{
    if l == 0 {
        return 0;
    }
    1 << rank[l as usize]
}

// The bits of drawing d, as its labels stand.
fn bits_of(labels: &[u32; TABLES], rank: &[u16; LABELS], d: usize) -> [u32; CELLS]
    requires { (d < 32) × ((i : ℕ) → i < 100 → (get_or (row 100 d labels.now) i 0 ≤ 65536)
        × (0 < get_or (row 100 d labels.now) i 0 → get_or rank.now (get_or (row 100 d labels.now) i 0) 0 < 32)) }
    ensures { BitsOfRow (row 100 d labels.now) rank.now 100 result }
{
    let mut bits = [0; CELLS];
    for i in 0..CELLS {
        bits[i] = bit_of(rank, labels[CELLS * d + i]);
    }
    bits
}

// Notes the bits of all drawings of an accepted survey with n labels, if these are few.
pub fn note_bits(survey: &[u8], labels: &mut [u32; TABLES], rank: &[u16; LABELS], n: usize)
    requires { ((bytes_refusal survey.now).number ≡ 0) × Tables survey.now labels.old
        × ((alphabet : List ℕ) × Ranks (drawings_of survey.now) rank.now alphabet n) }
    ensures { Tables survey.now labels.new
        × BitsNoted survey.now labels.new rank.now n }
{
    if FEW < n {
        return;
    }
    let drawings = Survey::counted(survey).drawings;
    for d in 0..drawings {
        let bits = bits_of(labels, rank, d);
        put_table(&bits, 3 * Survey::MOST_DRAWINGS + d, labels);
    }
}

// The bit of the label from device u to device v of drawing d.
pub fn bits_in(labels: &[u32; TABLES], d: usize, u: usize, v: usize) -> u32
    requires { (d < 32) × (u < 10) × (v < 10) }
    ensures { result ≡ label_at (drawing_bits labels.now d) u v }
{
    labels[CELLS * (3 * Survey::MOST_DRAWINGS + d) + (Drawing::MOST_DEVICES * u + v)]
}
