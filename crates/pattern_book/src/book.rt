// The book of all small patterns: the least code of every connected pattern with few cables and few kinds, whether or not a survey has it.
ghost use Rattle.std.specs.Prelude.{◌≡◌};
ghost use Rattle.books.specs.Book.{unsupported, one_to_three};
ghost use Rattle.entries.specs.Written.{ListWritten};
ghost use Rattle.small_patterns.specs.SmallWalk.{Asked};
ghost use Rattle.pattern_book.specs.BookSays.{BookSays};

use records::bytes::clear;
use records::code::Code;
use records::refusal::{Fault, Refusal};
use small_patterns::grow::walk_small;
use small_patterns::next::{AskedBounds, BookBounds};

// The least and the most that a setting may be.
const LEAST: u32 = 1;

const MOST: u32 = 3;

// Whether a setting is within its bounds.
#[tactic(auto, unfolding(books::specs::Book::one_to_three))]
fn one_to_three(n: u32) -> bool
    ensures { result ≡ one_to_three n }
{
    (LEAST..=MOST).contains(&n)
}

// Writes the book of settings within their bounds. The code grows in one array.
fn write_small(asked: AskedBounds, output: &mut [u8]) -> Result<usize, Fault>
    ensures { ListWritten (Asked asked.bounds) unsupported asked.bounds.limit output.old result output.new }
{
    let mut code = [0; Code::BYTES];
    match walk_small(asked.bounds, &mut code, 0, 1, output, 0) {
        Some(entries) => Ok(entries),
        None => {
            clear(output);
            Err(Refusal::OutputLength.into())
        }
    }
}

// Writes the book: all patterns of at most `limit` cables, with device kinds below a and cable kinds below b.
pub fn write_book(a: u32, b: u32, limit: u32, output: &mut [u8]) -> Result<usize, Fault>
    ensures { BookSays a b limit result output.old output.new }
{
    if !one_to_three(a) || !one_to_three(b) {
        return Err(Refusal::KindCount.into());
    }
    if !one_to_three(limit) {
        return Err(Refusal::BookLimit.into());
    }
    // Casts, since usize has no From<u32>.
    let bounds = BookBounds {
        devices: a as usize,
        cables: b as usize,
        limit: limit as usize,
    };
    write_small(AskedBounds { bounds }, output)
}
