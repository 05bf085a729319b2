// The later sheets of each drawing's crane, as the bits of one number for each drawing; they stand behind the tables of labels.
ghost use Rattle.std.specs.Prelude.{◌≡◌, ◌+◌, ◌*◌, ◌<◌, get_or};
ghost use Rattle.graphs.specs.Survey.{bytes_refusal, cranes, drawing_count};
ghost use Rattle.growth.specs.Sheets.{later_in, repeated_in, SheetsNoted, LaterBefore};
ghost use Rattle.walks.specs.DrawingTables.{Tables};
ghost use Rattle.walks.specs.SheetTables.{sheets_of, BesideSheets};

use records::drawing::Drawing;
use records::survey::Survey;
use surveys::labels::{TABLES, put_table};
use tables::table::CELLS;

// Where the drawings that have a later sheet stand, as bits, behind the numbers of 32 drawings.
const REPEATED_AT: usize = Survey::MOST_DRAWINGS;

// The row behind all tables.
const SHEETS_ROW: usize = 4 * Survey::MOST_DRAWINGS;

// The crane of drawing d.
fn crane_of(survey: &[u8], d: usize) -> u8
    requires { ((bytes_refusal survey.now).number ≡ 0) × (d < drawing_count survey.now) }
    ensures { result ≡ get_or (cranes survey.now) d 256 }
{
    survey[Drawing::BYTES * d + Drawing::CRANE_AT]
}

// The later sheets of drawing d's crane.
fn later_sheets(survey: &[u8], d: usize) -> u32
    requires { ((bytes_refusal survey.now).number ≡ 0) × (d < drawing_count survey.now) }
    ensures { LaterBefore (drawing_count survey.now) (cranes survey.now) d result }
{
    let crane = crane_of(survey, d);
    let drawings = Survey::counted(survey).drawings;
    let mut later: u32 = 0;
    for e in d + 1..drawings {
        if crane_of(survey, e) == crane {
            later |= 1 << e as u32;
        }
    }
    later
}

// The table of sheets of an accepted survey.
fn sheet_table(survey: &[u8]) -> [u32; CELLS]
    requires { (bytes_refusal survey.now).number ≡ 0 }
    ensures { SheetsNoted (cranes survey.now) result }
{
    let mut sheets = [0; CELLS];
    let mut repeated: u32 = 0;
    for d in 0..Survey::counted(survey).drawings {
        let later = later_sheets(survey, d);
        sheets[d] = later;
        if later != 0 {
            repeated |= 1 << d as u32;
        }
    }
    sheets[REPEATED_AT] = repeated;
    sheets
}

// Notes the sheets of an accepted survey behind its tables, which stay as they are.
pub fn note_sheets(survey: &[u8], labels: &mut [u32; TABLES])
    requires { ((bytes_refusal survey.now).number ≡ 0) × Tables survey.now labels.old }
    ensures { BesideSheets labels.old labels.new
        × SheetsNoted (cranes survey.now) (sheets_of labels.new) }
{
    let sheets = sheet_table(survey);
    put_table(&sheets, SHEETS_ROW, labels);
}

// The later sheets of drawing d's crane, as noted.
pub(crate) fn later_in(labels: &[u32; TABLES], d: usize) -> u32
    requires { d < 32 }
    ensures { result ≡ later_in (sheets_of labels.now) d }
{
    labels[CELLS * SHEETS_ROW + d]
}

// The drawings that have a later sheet of their crane.
pub(crate) fn repeated_in(labels: &[u32; TABLES]) -> u32
    ensures { result ≡ repeated_in (sheets_of labels.now) }
{
    labels[CELLS * SHEETS_ROW + REPEATED_AT]
}
