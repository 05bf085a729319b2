// Taking a candidate up: its code is tested, and the entry of one that is the least is the next one of the list.
ghost use Rattle.codes.specs.Code.{recs_in};
ghost use Rattle.growth.specs.Page.{page};
ghost use Rattle.taking.specs.Taking.{CanTakeCandidate, CandidateTaken, IsTakenOn};

use entries::next::next_entry;
use least_grown::grown::least_grown;
use marking::cells::ONE_MORE;
use records::code::Code;
use records::entry::Entry;

// What becomes of a candidate: its code is not the least, its entry cannot stand behind the others, or it stands there.
#[derive(Clone, Copy, Debug, PartialEq, Eq)]
pub enum Taken {
    Passed,
    Stopped,
    Listed,
}

// A candidate after it was taken up: it goes on, or that was all, each with how many entries stand in the list; or its entry cannot stand
// there.
#[derive(Clone, Copy, Debug, PartialEq, Eq)]
pub enum TakenOn {
    On(usize),
    Over(usize),
    Stopped,
}

// Writes the entry of a candidate, of so many cables and devices, whose code is the least; or holds it against the list that is given.
// Its example is the lowest drawing of the cell's set.
fn take_up(
    code: &[u8; Code::BYTES],
    cables: usize,
    devices: usize,
    cell: u64,
    checking: bool,
    given: &[u8],
    output: &mut [u8],
    count: usize,
) -> Taken
    requires { CanTakeCandidate code.now cables devices cell (page checking given.now output.old) count }
    ensures { CandidateTaken checking (recs_in cables code.now) cell count
        (page checking given.now output.old) result (page checking given.now output.new) }
{
    if !least_grown(code, cables, devices) {
        return Taken::Passed;
    }
    let support = (cell / ONE_MORE) as usize;
    let example = u32::trailing_zeros((cell % ONE_MORE) as u32) as usize;
    let head = Entry::new(cables, support, example);
    if !next_entry(code, head, count, checking, given, output) {
        return Taken::Stopped;
    }
    Taken::Listed
}

// Takes a candidate up. It goes on if its entry is listed and it is smaller than the limit.
pub fn take_on(
    code: &[u8; Code::BYTES],
    cables: usize,
    devices: usize,
    cell: u64,
    limit: usize,
    checking: bool,
    given: &[u8],
    output: &mut [u8],
    count: usize,
) -> TakenOn
    requires { CanTakeCandidate code.now cables devices cell (page checking given.now output.old) count }
    ensures { IsTakenOn checking (recs_in cables code.now) cell limit count
        (page checking given.now output.old) result (page checking given.now output.new) }
{
    match take_up(code, cables, devices, cell, checking, given, output, count) {
        Taken::Passed => TakenOn::Over(count),
        Taken::Stopped => TakenOn::Stopped,
        Taken::Listed if cables == limit => TakenOn::Over(count + 1),
        Taken::Listed => TakenOn::On(count + 1),
    }
}
