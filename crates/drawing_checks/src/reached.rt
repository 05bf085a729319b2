// The devices that cables lead to from device 0. Round by round each cable takes its other end up; after as many rounds
// as there are devices, all that can be reached are.
ghost use Rattle.std.specs.Prelude.{◌≡◌, [], ◌∷◌, ◌+◌, ◌^◌, ◌<◌};
ghost use Rattle.graphs.specs.Drawing.{drawing_in, connected};
ghost use Rattle.drawing_checks.specs.Reached.{MarksDevices, MarksOneMore, MarksEnds, MarksSpread, EndsLow, SoundCables};

use records::cable::Cable;
use records::drawing::Drawing;

// A mark for each device reached, and their number.
#[derive(Drop)]
struct Reached {
    marks: [bool; Drawing::MOST_DEVICES],
    count: usize,
}

impl Reached {
    // Device 0 alone.
    fn start() -> Self
        ensures { MarksDevices result (0 ∷ []) }
    {
        let mut marks = [false; Drawing::MOST_DEVICES];
        marks[0] = true;
        Reached { marks, count: 1 }
    }

    // One device more.
    fn with_device(mut self, v: usize) -> Self
        requires { (v < 10) × (self.count < 2 ^ 32) }
        ensures { MarksOneMore self v result }
    {
        self.marks[v] = true;
        self.count = self.count + 1;
        self
    }

    // The other end of a cable one of whose ends is reached.
    fn with_ends(self, cable: Cable) -> Self
        requires { (cable.a < 10) × (cable.b < 10) × (self.count < 2 ^ 32) }
        ensures { MarksEnds self cable result }
    {
        let a = cable.a;
        let b = cable.b;
        if self.marks[a] {
            if self.marks[b] {
                return self;
            }
            return self.with_device(b);
        }
        if self.marks[b] {
            return self.with_device(a);
        }
        self
    }
}

// One round over the m cables of a record.
fn spread(drawing: &[u8], m: usize, reached: Reached) -> Reached
    requires { EndsLow m drawing.now × (reached.count < 2 ^ 31) }
    ensures { MarksSpread m drawing.now reached result }
{
    let mut reached = reached;
    for c in 0..m {
        reached = reached.with_ends(Cable::at(drawing, c));
    }
    reached
}

// Whether cables lead from device 0 to every other.
pub fn all_reached(drawing: &[u8], counts: Drawing) -> bool
    requires { SoundCables drawing.now counts }
    ensures { result ≡ connected (drawing_in drawing.now) }
{
    let n = counts.devices;
    let mut reached = Reached::start();
    for round in 0..n {
        reached = spread(drawing, counts.cables, reached);
    }
    reached.count == n
}
