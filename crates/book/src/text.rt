// The text of a book, over any lent bytes and over the program's own, which have room for every text.
ghost use Rattle.std.specs.Prelude.{length};
ghost use Rattle.book.specs.BookText.{BookTextSays, BookPrinted};

use crate::settings::Request;
use pattern_book::book::write_book;
use printing::text::write_text;

// The entries of the largest book, of three kinds each and at most three cables: 1,947 of 43 bytes.
pub const BOOK_BYTES: usize = 83721;

// 169 for the line of each entry, and 40 for the last line or a refusal: no text is longer.
pub const BOOK_TEXT_BYTES: usize = 329083;

// Makes the text of the book in front of the lent bytes.
fn book_text(request: Request, entries: &mut [u8], text: &mut [u8]) -> Option<usize>
    ensures { BookTextSays request.devices request.cables request.limit (length entries.old)
        result text.old text.new }
{
    let answer = write_book(request.devices, request.cables, request.limit, entries);
    write_text(answer, entries, text)
}

// The same in the program's own bytes, and the number of bytes that the text has. None never comes: every text fits.
pub fn whole_book(
    request: Request,
    entries: &mut [u8; BOOK_BYTES],
    text: &mut [u8; BOOK_TEXT_BYTES],
) -> usize
    ensures { BookPrinted request.devices request.cables request.limit result text.old text.new }
{
    book_text(request, entries, text).unwrap_or(0)
}
