// What the program's arguments ask for: the usual book, the book of three numbers, or nothing that can be made out.
ghost use Rattle.std.specs.Prelude.{◌≡◌, ◌≤◌, length};
ghost use Rattle.book.specs.Requests.{digits_read, numeral_read, book_read, request_read};

// The settings of a book.
#[derive(Clone, Copy, Debug, PartialEq, Eq)]
pub struct Request {
    pub devices: u32,
    pub cables: u32,
    pub limit: u32,
}

// Longer words are not read: their value may be too large for a u32.
pub const MOST_DIGITS: usize = 9;

// The program's name is counted too.
const NAME_ALONE: usize = 1;

const THREE_NUMBERS: usize = 4;

// What every setting of the usual book is.
const USUAL: u32 = 2;

// The number of some digits, the first the highest.
fn read_digits(word: &[u8]) -> Option<u32>
    requires { length word.now ≤ 9 }
    ensures { result ≡ digits_read 0 word.now }
{
    let mut value = 0;
    for byte in word {
        if !byte.is_ascii_digit() {
            return None;
        }
        value = 10 * value + u32::from(byte - b'0');
    }
    Some(value)
}

// The number of 1 to 9 digits.
#[tactic(auto, unfolding(crate::specs::Requests::numeral_read))]
fn read_numeral(word: &[u8]) -> Option<u32>
    ensures { result ≡ numeral_read word.now }
{
    if word.is_empty() || MOST_DIGITS < word.len() {
        return None;
    }
    read_digits(word)
}

// The book of three numbers.
fn read_book(first: &[u8], second: &[u8], third: &[u8]) -> Option<Request>
    ensures { result ≡ book_read (numeral_read first.now) (numeral_read second.now) (numeral_read third.now) }
{
    Some(Request {
        devices: read_numeral(first)?,
        cables: read_numeral(second)?,
        limit: read_numeral(third)?,
    })
}

// What so many words ask for, the program's name among them and these the first three behind it.
#[tactic(auto, unfolding(crate::specs::Requests::request_read))]
pub fn read_request(count: usize, first: &[u8], second: &[u8], third: &[u8]) -> Option<Request>
    ensures { result ≡ request_read count first.now second.now third.now }
{
    match count {
        NAME_ALONE => Some(Request {
            devices: USUAL,
            cables: USUAL,
            limit: USUAL,
        }),
        THREE_NUMBERS => read_book(first, second, third),
        _ => None,
    }
}
