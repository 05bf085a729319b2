// A look ahead before a code grows: most candidates give a code that cannot be the least, and their record alone tells.
ghost use Rattle.std.specs.Prelude.{◌≡◌, true, ◌<◌, ◌≤◌};
ghost use Rattle.laws.specs.Decides.{Decides};
ghost use Rattle.codes.specs.Code.{kinds_before};
ghost use Rattle.code_records.specs.Records.{as_rec};
ghost use Rattle.walks.specs.Hopes.{record_of, CanLook, OverlookedBy, OverlookedAt, HopelessIf, with_labels};

use code_records::record::Record;
use records::code::Code;

// Whether a cable with these labels comes before record t.
#[tactic(auto, unfolding(codes::specs::Code::kinds_before))]
fn labels_before(code: &[u8; Code::BYTES], t: usize, ki: u8, c: u8, kj: u8) -> bool
    requires { t < 20 }
    ensures { result ≡ kinds_before (with_labels ki c kj) (record_of code.now t) }
{
    let held = Record::at(code, t);
    (ki, c, kj) < (held.ki, held.c, held.kj)
}

// Whether record t is a forward one from device a that such a cable from a would have come before.
#[tactic(auto, unfolding(codes::specs::Code::kinds_before))]
fn overlooks(code: &[u8; Code::BYTES], t: usize, a: u8, c: u8, kj: u8) -> bool
    requires { t < 20 }
    ensures { Decides result (OverlookedBy code.now t a c kj) }
{
    let held = Record::at(code, t);
    held.i == a && a < held.j && labels_before(code, t, held.ki, c, kj)
}

// Whether a cable from device a would have come before one that the code takes from a.
fn overlooked(code: &[u8; Code::BYTES], m: usize, a: u8, c: u8, kj: u8) -> bool
    requires { m ≤ 20 }
    ensures { Decides result (OverlookedAt code.now m a c kj) }
{
    (1..m).any(|t| overlooks(code, t, a, c, kj))
}

// Whether the code with a record more is certain not to be the least: that record's cable comes before the first record,
// seen from one of its ends, or it was overlooked where the code took another cable from the same device. Where it is not, the
// code's own numbering sees nothing before the code.
pub fn hopeless(code: &[u8; Code::BYTES], m: usize, next: Record) -> bool
    requires { CanLook code.now m (as_rec next) }
    ensures { HopelessIf code.now m (as_rec next) result }
{
    if m == 0 {
        return next.kj < next.ki;
    }
    if labels_before(code, 0, next.ki, next.c, next.kj)
        || labels_before(code, 0, next.kj, next.c, next.ki)
    {
        return true;
    }
    if next.i < next.j {
        return overlooked(code, m, next.i, next.c, next.kj);
    }
    overlooked(code, m, next.j, next.c, next.ki)
}
