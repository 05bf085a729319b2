// The line of an entry: its support, its example behind a blank and @, then each record of its code after a blank, as i-j:kind.cable.kind.
ghost use Rattle.std.specs.Prelude.{◌≡◌, ◌∷◌, ◌<◌, ◌≤◌, Some, map, length, get_or};
ghost use Rattle.codes.specs.Code.{rec_in};
ghost use Rattle.text_lines.specs.Texts.{decimal, record_text, records_text, entry_text, entry_shown};
ghost use Rattle.text_lines.specs.Writing.{Wrote};

use crate::place::{Place, put_byte, put_number};
use records::code::Code;
use records::entry::Entry;

// Number k of a row, behind the mark that stands in front of it.
fn put_field(text: &mut [u8], place: Place, mark: u8, row: &[u8], k: usize) -> Option<Place>
    requires { k < length row.now }
    ensures { Wrote text.old (Some place) (mark ∷ decimal (get_or row.now k 0)) result text.new }
{
    let next = put_byte(text, Some(place), mark)?;
    put_number(text, Some(next), usize::from(row[k]))
}

// A blank and a record.
fn put_record(text: &mut [u8], place: Place, row: &[u8; Code::RECORD_BYTES]) -> Option<Place>
    ensures { Wrote text.old (Some place) (32 ∷ record_text (rec_in row.now)) result text.new }
{
    let i = put_field(text, place, b' ', row, 0)?;
    let j = put_field(text, i, b'-', row, 1)?;
    let kind_i = put_field(text, j, b':', row, 2)?;
    let cable = put_field(text, kind_i, b'.', row, 3)?;
    put_field(text, cable, b'.', row, 4)
}

// One record after another.
fn put_records(text: &mut [u8], place: Place, records: &[[u8; Code::RECORD_BYTES]]) -> Option<Place>
    ensures { Wrote text.old (Some place) (records_text (map rec_in records.now)) result text.new }
{
    let mut next = place;
    for record in records {
        next = put_record(text, next, record)?;
    }
    Some(next)
}

// The line of an entry. Whatever it says, it has no more records than it has bytes for.
pub fn put_line(text: &mut [u8], place: Option<Place>, entry: &[u8; Entry::BYTES]) -> Option<Place>
    ensures { Wrote text.old place (entry_text (entry_shown entry.now)) result text.new }
{
    let cables = usize::from(entry[0]).min(Entry::MOST_RECORDS);
    let (records, _) = entry[Entry::RECORDS_AT..].as_chunks();
    let next = put_number(text, place, usize::from(entry[1]))?;
    let next = put_byte(text, Some(next), b' ')?;
    let next = put_field(text, next, b'@', entry, Entry::EXAMPLE_AT)?;
    let next = put_records(text, next, &records[..cables])?;
    put_byte(text, Some(next), b'\n')
}
