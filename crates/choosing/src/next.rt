// The candidates of a code: the records that extend it are counted in the drawings that contain it, and those with enough cranes chosen.
ghost use Rattle.codes.specs.Code.{recs_in};
ghost use Rattle.walks.specs.LabelMarks.{drawings_of, cranes_of};
ghost use Rattle.walks.specs.Prepared.{Readied};
ghost use Rattle.walks.specs.Counts.{Blank};
ghost use Rattle.walks.specs.EmbeddingRows.{CanListIf, LevelMade};
ghost use Rattle.choosing.specs.NextChosen.{RoomToChoose, CandidatesChosen};

use candidates::choose::{CANDIDATES, choose};
use counting::next::count_next;
use embeddings::rows::KEPT;
use label_ranks::ranks::LABELS;
use listing::level::ENDS;
use marking::cells::PLACES;
use records::code::Code;
use surveys::labels::TABLES;

// Where the candidates end in the list, and whether the lists of the code's embeddings are whole.
#[derive(Drop)]
pub struct ChosenNext {
    pub top: usize,
    pub listed: bool,
}

// The candidates of a code of m records, rising, in the list from `base` on: the records that extend it in drawings of at least s cranes of
// the cell's set. Some that are certain not to lead to a least code may be left out.
pub fn choose_next(
    survey: &[u8],
    labels: &[u32; TABLES],
    rank: &[u16; LABELS],
    n: usize,
    s: usize,
    code: &[u8; Code::BYTES],
    m: usize,
    cell: u64,
    cells: &mut [u64; PLACES],
    seen: &mut [u16; PLACES],
    list: &mut [u64; CANDIDATES],
    base: usize,
    listed: bool,
    kept: &mut [u8; KEPT],
    ends: &mut [usize; ENDS],
) -> ChosenNext
    requires { Readied survey.now labels.now rank.now n × Blank cells.old seen.old
        × CanListIf survey.now labels.now code.now m cell listed kept.old ends.old
        × RoomToChoose s list.old base }
    ensures { CandidatesChosen (cranes_of survey.now) (drawings_of survey.now)
        (recs_in m code.now) rank.now n s
        cells.new seen.new list.old base list.new result.top
        × LevelMade survey.now code.now m
        kept.old ends.old kept.new ends.new result.listed }
{
    let next = count_next(
        survey, labels, rank, n, code, m, cell, listed, cells, seen, kept, ends,
    );
    let top = choose(labels, cells, seen, next.found, s, list, base);
    ChosenNext {
        top,
        listed: next.listed,
    }
}
