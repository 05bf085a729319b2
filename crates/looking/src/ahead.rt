// The next candidate of a code that the look ahead lets through, and the code grown by it in place.
ghost use Rattle.looking.specs.Looking.{CanLengthen, Lengthened, CanLookOn, LookedOn};

use candidates::choose::{CANDIDATES, PLACE};
use extending::extension::{append, record_at_place};
use extending::hopeful::hopeless;
use label_ranks::ranks::ALPHABET;
use records::code::Code;

// A candidate that is worth growing: where it stands in the list, the drawings that contain the code with it, and how many devices
// that code has.
#[derive(Drop)]
pub struct Hopeful {
    pub at: usize,
    pub cell: u64,
    pub wider: usize,
}

// The code grown by the record at a place: the number of its devices, or none where it is certain not to be the least, and stays as it is.
fn lengthen(
    code: &mut [u8; Code::BYTES],
    kinds: &mut [u8; 10],
    cables: usize,
    devices: usize,
    kind: u8,
    alphabet: &[u32; ALPHABET],
    n: usize,
    place: usize,
) -> Option<usize>
    requires { CanLengthen code.old kinds.old cables devices kind alphabet.now n place }
    ensures { Lengthened code.old kinds.old cables devices kind alphabet.now n place
        code.new kinds.new result }
{
    let next = record_at_place(kinds, devices, kind, alphabet, n, place);
    if hopeless(code, cables, next) {
        return None;
    }
    Some(append(code, kinds, cables, devices, next))
}

// The code grown by the first candidate, of a part of the list, that is worth it.
pub fn next_hopeful(
    code: &mut [u8; Code::BYTES],
    kinds: &mut [u8; 10],
    cables: usize,
    devices: usize,
    kind: u8,
    alphabet: &[u32; ALPHABET],
    n: usize,
    list: &[u64; CANDIDATES],
    from: usize,
    top: usize,
) -> Option<Hopeful>
    requires { CanLookOn code.old kinds.old cables devices kind alphabet.now n list.now from top }
    ensures { LookedOn code.old kinds.old cables devices kind alphabet.now n
        list.now from top code.new kinds.new result }
{
    for k in from..top {
        let candidate = list[k];
        let place = (candidate / PLACE) as usize;
        if let Some(wider) = lengthen(code, kinds, cables, devices, kind, alphabet, n, place) {
            return Some(Hopeful {
                at: k,
                cell: candidate % PLACE,
                wider,
            });
        }
    }
    None
}
