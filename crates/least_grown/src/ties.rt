// Ties of a code's own numbering: forward records that could have gone to another device than the code's. Where there is none, the
// code's own start leads to its own numbering alone.
ghost use Rattle.std.specs.Prelude.{◌<◌, ◌≤◌};
ghost use Rattle.laws.specs.Decides.{Decides};
ghost use Rattle.least_seen.specs.Accepting.{TestCounts};
ghost use Rattle.least_grown.specs.OwnTies.{LabelAbove, TieAt, OwnTie};

use code_records::record::Record;
use least_seen::seen::wanted_label;
use tables::table::{CELLS, label};

// Whether device i has a cable with this label to a device above j.
fn label_above(table: &[u32; CELLS], n: usize, i: usize, j: usize, wanted: u32) -> bool
    requires { (i < 10) × (n ≤ 10) × (j < 10) }
    ensures { Decides result (LabelAbove table.now n i j wanted) }
{
    (j + 1..n).any(|w| label(table, i, w) == wanted)
}

// Whether record k ties.
fn tie_at(table: &[u32; CELLS], code: &[u8], m: usize, n: usize, k: usize) -> bool
    requires { TestCounts table.now code.now m n × (k < m) }
    ensures { Decides result (TieAt table.now code.now n k) }
{
    let r = Record::at(code, k);
    r.i <= r.j
        && label_above(
            table,
            n,
            usize::from(r.i),
            usize::from(r.j),
            wanted_label(code, k),
        )
}

// Whether a record but the first and the last does; nothing follows the last.
pub fn own_tie(table: &[u32; CELLS], code: &[u8], m: usize, n: usize) -> bool
    requires { TestCounts table.now code.now m n × (1 ≤ m) }
    ensures { Decides result (OwnTie table.now code.now m n) }
{
    (1..m - 1).any(|k| tie_at(table, code, m, n, k))
}
