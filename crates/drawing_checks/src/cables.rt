// The cables of a drawing's record, checked in rising order: refusals 4 to 6.
ghost use Rattle.std.specs.Prelude.{◌≡◌, [], ◌<◌};
ghost use Rattle.graphs.specs.Drawing.{cable_refusal};
ghost use Rattle.records.specs.Refusals.{checked_number};
ghost use Rattle.records.specs.Drawings.{counts_refusal};
ghost use Rattle.records.specs.DrawingCables.{as_cable, cables_before};
ghost use Rattle.drawing_checks.specs.Joined.{ends_fault, PairOf};

use records::cable::Cable;
use records::drawing::Drawing;
use records::refusal::Refusal;

// The ends of a cable, the lower first.
#[derive(Drop)]
struct Pair {
    low: usize,
    high: usize,
}

// The pair that a cable joins, the same whichever end stands first.
fn pair_of(cable: Cable) -> Pair
    requires { (cable.a < 10) × (cable.b < 10) }
    ensures { PairOf cable result }
{
    Pair {
        low: cable.a.min(cable.b),
        high: cable.a.max(cable.b),
    }
}

// The first reason to refuse a cable of a record of n devices for its ends alone.
fn check_ends(cable: Cable, n: usize) -> Result<(), Refusal>
    ensures { checked_number result ≡ ends_fault n (as_cable cable) }
{
    let a = cable.a;
    let b = cable.b;
    if n <= a || n <= b {
        return Err(Refusal::CableEnd);
    }
    if a == b {
        return Err(Refusal::CableLoop);
    }
    Ok(())
}

// The first reason to refuse one of the first m cables of a record of n devices: a cable is checked fully before the next. A table
// has a mark for each pair that an earlier cable joins, so that no cable walks the earlier ones.
pub fn check_cables(drawing: &[u8], n: usize, m: usize) -> Result<(), Refusal>
    requires { counts_refusal (record { devices = n; cables = m }) ≡ 0 }
    ensures { checked_number result ≡ cable_refusal n [] (cables_before m drawing.now) }
{
    let mut joined = [[false; Drawing::MOST_DEVICES]; Drawing::MOST_DEVICES];
    for c in 0..m {
        let cable = Cable::at(drawing, c);
        check_ends(cable, n)?;
        let pair = pair_of(cable);
        let low = pair.low;
        let high = pair.high;
        let again = joined[low][high];
        joined[low][high] = true;
        if again {
            return Err(Refusal::CablePair);
        }
    }
    Ok(())
}
