// One record of a code, and the order of two: what a code differs by first.
ghost use Rattle.std.specs.Prelude.{◌≡◌, ◌+◌, ◌*◌, ◌≤◌, ◌<◌, length};
ghost use Rattle.laws.specs.Rows.{row};
ghost use Rattle.codes.specs.Code.{rec_in};
ghost use Rattle.codes.specs.RecordPut.{RecordPut};
ghost use Rattle.code_records.specs.Records.{as_rec, order_of, labels_order};

use records::code::Code;
use std::cmp::Ordering;

// The devices i and j that a cable joins, the kind of i, the kind of the cable, the kind of j.
#[derive(Clone, Copy)]
pub struct Record {
    pub i: u8,
    pub j: u8,
    pub ki: u8,
    pub c: u8,
    pub kj: u8,
}

impl Record {
    // Record k of a code.
    pub fn at(code: &[u8], k: usize) -> Self
        requires { 5 * k + 5 ≤ length code.now }
        ensures { as_rec result ≡ rec_in (row 5 k code.now) }
    {
        let at = Code::RECORD_BYTES * k;
        Record {
            i: code[at],
            j: code[at + 1],
            ki: code[at + 2],
            c: code[at + 3],
            kj: code[at + 4],
        }
    }

    // The labels alone: kind of i, then cable kind, then kind of j.
    #[tactic(auto, unfolding(crate::specs::Records::labels_order))]
    fn order_of_labels(self, other: Record) -> Ordering
        ensures { result ≡ labels_order (as_rec self) (as_rec other) }
    {
        let cables = self.c.cmp(&other.c).then(self.kj.cmp(&other.kj));
        self.ki.cmp(&other.ki).then(cables)
    }

    // Backward before forward; two backward: smaller j first; two forward: greater i first; then the labels.
    #[tactic(auto, using(crate::specs::RecordLaws::order_forward_backward, crate::specs::RecordLaws::order_backward_forward))]
    pub fn order(self, other: Record) -> Ordering
        ensures { result ≡ order_of (as_rec self) (as_rec other) }
    {
        let labels = self.order_of_labels(other);
        if self.i < self.j {
            if other.i < other.j {
                let forward = self.j.cmp(&other.j).then(labels);
                return other.i.cmp(&self.i).then(forward);
            }
            return Ordering::Greater;
        }
        if other.i < other.j {
            return Ordering::Less;
        }
        let backward = self.i.cmp(&other.i).then(labels);
        self.j.cmp(&other.j).then(backward)
    }
}

// Writes a record behind m others.
pub fn put_record(code: &mut [u8; Code::BYTES], m: usize, next: Record)
    requires { (m < 20) × (length code.old ≡ 100) }
    ensures { RecordPut code.old m (as_rec next) code.new }
{
    let at = Code::RECORD_BYTES * m;
    code[at] = next.i;
    code[at + 1] = next.j;
    code[at + 2] = next.ki;
    code[at + 3] = next.c;
    code[at + 4] = next.kj;
}
