// A branch of a search, in lent arrays: rows of a code so far with one numbering of them in a drawing. `numbers` has the device of each
// of the `given` numbers, `used` whether a device has one, `path` the rightmost path from device 0 on, with `count` places; `low` is
// the lowest number that a backward step may go to. Numbers are given in place and taken back, so that no array is copied.
ghost use Rattle.std.specs.Prelude.{◌≡◌, ◌<◌};
ghost use Rattle.branches.specs.Branches.{device_placed, OnPath, NumberGiven, NumberTaken};

use records::drawing::Drawing;
use std::mem::replace;

// The device at place q of the path.
pub fn device_at(
    numbers: &[u8; Drawing::MOST_DEVICES],
    path: &[u8; Drawing::MOST_DEVICES],
    q: usize,
) -> usize
    requires { OnPath numbers.now path.now q }
    ensures { (result ≡ device_placed numbers.now path.now q) × (result < 10) }
{
    usize::from(numbers[usize::from(path[q])])
}

// What stood where a number was given: in `numbers`, and behind a place of the path.
#[derive(Drop)]
pub struct Displaced {
    pub number: u8,
    pub next: u8,
}

// A forward record from place q to device w is listed: w gets the next number, and the path ends there.
pub fn give_number(
    numbers: &mut [u8; Drawing::MOST_DEVICES],
    used: &mut [bool; Drawing::MOST_DEVICES],
    path: &mut [u8; Drawing::MOST_DEVICES],
    given: usize,
    q: usize,
    w: usize,
) -> Displaced
    requires { (given < 10) × (q < 9) × (w < 10) }
    ensures { NumberGiven numbers.old numbers.new used.old used.new
        path.old path.new given q w result }
{
    used[w] = true;
    Displaced {
        number: replace(&mut numbers[given], w as u8),
        next: replace(&mut path[q + 1], given as u8),
    }
}

// The number is taken back, and what stood there before stands there again.
pub fn take_number(
    numbers: &mut [u8; Drawing::MOST_DEVICES],
    used: &mut [bool; Drawing::MOST_DEVICES],
    path: &mut [u8; Drawing::MOST_DEVICES],
    given: usize,
    q: usize,
    w: usize,
    was: Displaced,
)
    requires { (given < 10) × (q < 9) × (w < 10) }
    ensures { NumberTaken numbers.old numbers.new used.old used.new
        path.old path.new given q w was }
{
    numbers[given] = was.number;
    used[w] = false;
    path[q + 1] = was.next;
}
