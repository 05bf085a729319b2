// The text of what a catalogue call answers: a line for each entry and the number of patterns, or the refusal.
ghost use Rattle.std.specs.Prelude.{Some, map};
ghost use Rattle.records.specs.Refusals.{number_of};
ghost use Rattle.text_lines.specs.Texts.{lines, entry_shown, entries_shown, catalogue_text, drawing_text, refusal_text, text_of};
ghost use Rattle.text_lines.specs.Writing.{Wrote};
ghost use Rattle.printing.specs.Says.{TextSays};

use records::entry::Entry;
use records::refusal::Fault;
use text_lines::line::put_line;
use text_lines::place::{Place, put_byte, put_number, put_word};

// One line after another.
fn put_lines(text: &mut [u8], place: Place, entries: &[[u8; Entry::BYTES]]) -> Option<Place>
    ensures { Wrote text.old (Some place) (lines (map entry_shown entries.now)) result text.new }
{
    let mut next = place;
    for entry in entries {
        next = put_line(text, Some(next), entry)?;
    }
    Some(next)
}

// The catalogue of n entries, or of as many as are lent.
fn put_catalogue(text: &mut [u8], place: Place, entries: &[u8], n: usize) -> Option<Place>
    ensures { Wrote text.old (Some place) (catalogue_text (entries_shown n entries.now)) result text.new }
{
    let (lent, _) = entries.as_chunks();
    let n = n.min(lent.len());
    let next = put_lines(text, place, &lent[..n])?;
    let next = put_number(text, Some(next), n)?;
    put_word(text, Some(next), b" patterns\n")
}

// The drawing at fault, for the refusals of a drawing.
fn put_drawing(text: &mut [u8], place: Place, number: usize, drawing: usize) -> Option<Place>
    ensures { Wrote text.old (Some place) (drawing_text number drawing) result text.new }
{
    if number < 2 || 8 < number {
        return Some(place);
    }
    let next = put_word(text, Some(place), b" drawing ")?;
    put_number(text, Some(next), drawing)
}

// The line of a refusal.
fn put_refusal(text: &mut [u8], place: Place, fault: Fault) -> Option<Place>
    ensures { Wrote text.old (Some place) (refusal_text (number_of fault.refusal) fault.drawing) result text.new }
{
    let number = fault.refusal.number() as usize;
    let next = put_word(text, Some(place), b"refused ")?;
    let next = put_number(text, Some(next), number)?;
    let next = put_drawing(text, next, number, fault.drawing)?;
    put_byte(text, Some(next), b'\n')
}

// The one or the other.
fn put_answer(
    text: &mut [u8],
    place: Place,
    answer: Result<usize, Fault>,
    entries: &[u8],
) -> Option<Place>
    ensures { Wrote text.old (Some place) (text_of answer entries.now) result text.new }
{
    match answer {
        Ok(n) => put_catalogue(text, place, entries, n),
        Err(fault) => put_refusal(text, place, fault),
    }
}

// Makes the text of an answer in front of the lent bytes, and answers how many bytes it has; None if there is no room for all of it.
pub fn write_text(answer: Result<usize, Fault>, entries: &[u8], text: &mut [u8]) -> Option<usize>
    ensures { TextSays answer entries.now result text.old text.new }
{
    let start = Place {
        at: 0,
        room: text.len(),
    };
    let end = put_answer(&mut text[..0], start, answer, entries)?;
    put_answer(text, start, answer, entries);
    Some(end.at)
}
