// Reading a code record by record: whether the next record is a permitted step, and what is known after it.
ghost use Rattle.std.specs.Prelude.{◌≡◌, true, ◌≤◌, ◌<◌};
ghost use Rattle.codes.specs.Code.{step_good, kinds_match};
ghost use Rattle.code_records.specs.Records.{as_rec};
ghost use Rattle.readings.specs.Readings.{as_reading, NotBegun, Begun, Sound, PlaceSays, StepFrom, StepSays, RecordHeld, CanTake, Steps};

use code_records::record::{Record, put_record};
use records::code::Code;
use records::drawing::Drawing;

// What the records so far tell: the code under work, the kind that each device was first given, and the j of the record
// before if that one was backward. There is no heap, so the first `devices` of ten kinds count.
#[derive(Clone, Copy)]
pub struct Reading {
    pub code: Code,
    pub kinds: [u8; Drawing::MOST_DEVICES],
    pub devices: usize,
    pub back: Option<u8>,
}

// Where a device stands among the first `count` of a path. The path is cut back to it, so the search goes from the end.
fn place_on(path: &[u8; Drawing::MOST_DEVICES], count: usize, device: u8) -> Option<usize>
    requires { count ≤ 10 }
    ensures { PlaceSays count path.now device result }
{
    path[..count].iter().rposition(|&place| place == device)
}

// The code with a record more; its path stays.
pub fn with_record(mut code: Code, next: Record) -> Code
    requires { code.count < 20 }
    ensures { RecordHeld code (as_rec next) result }
{
    let k = code.count;
    put_record(&mut code.records, k, next);
    code.count = k + 1;
    code
}

impl Reading {
    pub fn new() -> Self
        ensures { NotBegun result }
    {
        Reading {
            code: Code::new(),
            kinds: [0; Drawing::MOST_DEVICES],
            devices: 0,
            back: None,
        }
    }

    // Backward, (r, j): j on the path below its end r, but not the device before r, and above the j of the record
    // before if that one was backward.
    #[tactic(auto, using(crate::specs::ReadingLaws::backward_tests), unfolding(crate::specs::Readings::StepSays, crate::specs::Readings::PlaceSays))]
    fn backward_step(self, next: Record) -> Option<usize>
        requires { Begun self × (next.j ≤ next.i) }
        ensures { StepSays self (as_rec next) result }
    {
        let code = self.code;
        let end = code.path_count - 1;
        if next.i != code.path[end] || next.i <= next.j {
            return None;
        }
        if next.j == code.path[end - 1] {
            return None;
        }
        if self.back.is_some_and(|back| next.j <= back) {
            return None;
        }
        place_on(&code.path, code.path_count, next.j)?;
        Some(end)
    }

    // Forward, (i, r + 1): i on the path, and r + 1 the number of a device that may be.
    #[tactic(auto, using(crate::specs::ReadingLaws::forward_tests), unfolding(crate::specs::Readings::StepSays))]
    fn forward_step(self, next: Record) -> Option<usize>
        requires { Begun self × (next.i < next.j) }
        ensures { StepSays self (as_rec next) result }
    {
        let j = usize::from(next.j);
        if j != self.devices || Drawing::MOST_DEVICES <= j {
            return None;
        }
        let code = self.code;
        place_on(&code.path, code.path_count, next.i)
    }

    // The next record read as a permitted step: from the device at which place of the rightmost path, counted from device 0.
    // The first record is (0, 1), and device 0 is then to stand at place 0.
    #[tactic(auto, using(crate::specs::ReadingLaws::first_tests), unfolding(crate::specs::Readings::StepSays))]
    pub fn step(self, next: Record) -> Option<usize>
        requires { Sound self }
        ensures { StepSays self (as_rec next) result }
    {
        if self.devices == 0 {
            if next.i == 0 && next.j == 1 {
                return Some(0);
            }
            return None;
        }
        if next.i < next.j {
            return self.forward_step(next);
        }
        self.backward_step(next)
    }

    // Whether a permitted step gives each device that was met before the kind that it has.
    #[tactic(auto, using(crate::specs::StepLaws::kinds_tests))]
    pub fn kinds_match(self, next: Record) -> bool
        requires { Sound self × (step_good (as_reading self) (as_rec next) ≡ true) }
        ensures { result ≡ kinds_match (as_reading self) (as_rec next) }
    {
        if self.devices == 0 {
            return true;
        }
        let i = usize::from(next.i);
        if self.kinds[i] != next.ki {
            return false;
        }
        if next.i < next.j {
            return true;
        }
        let j = usize::from(next.j);
        self.kinds[j] == next.kj
    }

    // A forward record: the path is cut back to i and goes on to j, a new device. The first record is taken so too: its
    // device 0 gets its place and its kind here, and a device that has both keeps them.
    fn forwarded(self, place: usize, next: Record) -> Self
        requires { CanTake self (as_rec next) × StepFrom self (as_rec next) place × (next.i < next.j) }
        ensures { Steps self (as_rec next) result }
    {
        let i = usize::from(next.i);
        let j = usize::from(next.j);
        let mut kinds = self.kinds;
        kinds[i] = next.ki;
        kinds[j] = next.kj;
        let code = self.code;
        let mut longer = with_record(code, next);
        longer.path[place] = next.i;
        longer.path[place + 1] = next.j;
        longer.path_count = place + 2;
        Reading {
            code: longer,
            kinds,
            devices: j + 1,
            back: None,
        }
    }

    // A backward record: the path and the devices stay.
    fn backed(self, next: Record) -> Self
        requires { CanTake self (as_rec next) × (next.j ≤ next.i) }
        ensures { Steps self (as_rec next) result }
    {
        let code = self.code;
        let kinds = self.kinds;
        Reading {
            code: with_record(code, next),
            kinds,
            devices: self.devices,
            back: Some(next.j),
        }
    }

    // What is known after a record that is a step from the device at a place of the path.
    pub fn stepped(self, place: usize, next: Record) -> Self
        requires { CanTake self (as_rec next) × StepFrom self (as_rec next) place }
        ensures { Steps self (as_rec next) result }
    {
        if next.i < next.j {
            return self.forwarded(place, next);
        }
        self.backed(next)
    }
}
