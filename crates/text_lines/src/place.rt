// Bytes, words and numbers put behind each other. A text is made twice: first with no bytes lent, to learn whether there is
// room for it, then in the lent bytes. So a byte without a place in the lent bytes is only counted.
ghost use Rattle.std.specs.Prelude.{[], ◌∷◌};
ghost use Rattle.text_lines.specs.Texts.{decimal};
ghost use Rattle.text_lines.specs.Writing.{Wrote};

// Where the next byte goes and how many bytes there is room for. What puts something answers the place behind it, or None where the text
// is past its room; and behind None it puts nothing.
#[derive(Clone, Copy)]
pub struct Place {
    pub at: usize,
    pub room: usize,
}

// One byte.
pub fn put_byte(text: &mut [u8], place: Option<Place>, byte: u8) -> Option<Place>
    ensures { Wrote text.old place (byte ∷ []) result text.new }
{
    let Place { at, room } = place?;
    if room <= at {
        return None;
    }
    if at < text.len() {
        text[at] = byte;
    }
    Some(Place { at: at + 1, room })
}

// A word.
pub fn put_word(text: &mut [u8], place: Option<Place>, word: &[u8]) -> Option<Place>
    ensures { Wrote text.old place word.now result text.new }
{
    let mut next = place?;
    for &byte in word {
        next = put_byte(text, Some(next), byte)?;
    }
    Some(next)
}

// A number in decimal, its front digits first.
// By hand: no contract says when std's `write!` gives an `Err`, and `TextSays` of `write_text` says when a text is too long; it may not change.
pub fn put_number(text: &mut [u8], place: Option<Place>, n: usize) -> Option<Place>
    ensures { Wrote text.old place (decimal n) result text.new }
{
    if n < 10 {
        return put_byte(text, place, b'0' + n as u8);
    }
    let front = put_number(text, place, n / 10)?;
    put_byte(text, Some(front), b'0' + (n % 10) as u8)
}
