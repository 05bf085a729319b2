// The records that may come next in a code of few kinds, by number. They rise with it: records back from the newest device come first, by
// the device that they go to, then those forward to a new device, by the device that they come from, the newest first; each with
// every choice of three labels.
ghost use Rattle.std.specs.Prelude.{◌≡◌, cond, ◌+◌, ◌≤◌, ◌<◌, ltb};
ghost use Rattle.laws.specs.Decides.{Decides};
ghost use Rattle.code_records.specs.Records.{as_rec};
ghost use Rattle.books.specs.SmallRecords.{labels_at, numbered, next_count};
ghost use Rattle.books.specs.SmallFamily.{SmallLabels};

use code_records::record::Record;

// What a list of small patterns is asked for: how many kinds devices and cables may have, and how many cables there may be. None is more than three.
#[derive(Clone, Copy)]
pub struct BookBounds {
    pub devices: usize,
    pub cables: usize,
    pub limit: usize,
    ghost devices_few: { devices ≤ 3 },
    ghost cables_few: { cables ≤ 3 },
    ghost limit_few: { limit ≤ 3 },
}

// Bounds that let a cable in, as those of a book that is asked for have to; bounds as such need not.
#[derive(Clone, Copy)]
pub struct AskedBounds {
    pub bounds: BookBounds,
    ghost limit_some: { 1 ≤ bounds.limit },
}

// As many kinds as there may be, of two of them, and of three: the labels of a record.
const KINDS: usize = 3;

const PAIRS: usize = 9;

const LABELS: usize = 27;

// The record between two devices with the labels of a number.
fn labelled(i: usize, j: usize, t: usize) -> Record
    requires { (i < 256) × (j < 256) }
    ensures { as_rec result ≡ labels_at i j t }
{
    Record {
        i: i as u8,
        j: j as u8,
        ki: (t / PAIRS % KINDS) as u8,
        c: (t / KINDS % KINDS) as u8,
        kj: (t % KINDS) as u8,
    }
}

// How many records may come next where there are so many devices.
pub fn next_count(devices: usize) -> usize
    requires { (1 ≤ devices) × (devices ≤ 10) }
    ensures { result ≡ next_count devices }
{
    LABELS * (2 * devices - 1)
}

// Record number t of them.
pub fn nth_record(devices: usize, t: usize) -> Record
    requires { (1 ≤ devices) × (devices ≤ 10) × (t < next_count devices) }
    ensures { as_rec result ≡ numbered devices t }
{
    let step = t / LABELS;
    if step + 1 < devices {
        return labelled(devices - 1, step, t);
    }
    labelled(2 * devices - (step + 2), devices, t)
}

// How many devices there are after a record.
pub fn widened(devices: usize, next: Record) -> usize
    requires { devices ≤ 10 }
    ensures { result ≡ cond (ltb (as_rec next).i (as_rec next).j) (devices + 1) devices }
{
    if next.i < next.j {
        devices + 1
    } else {
        devices
    }
}

// Whether the kinds of a record are within so many kinds of devices and of cables. These are any numbers of kinds, also more than three.
pub fn within(devices: usize, cables: usize, next: Record) -> bool
    ensures { Decides result (SmallLabels devices cables (as_rec next)) }
{
    usize::from(next.ki) < devices && usize::from(next.c) < cables && usize::from(next.kj) < devices
}
