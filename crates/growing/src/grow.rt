// Growing a pattern and walking its next cables, which call each other: a pattern that is frequent and whose code is the
// least is listed, and grown by every cable that may come next, in rising order, up to the size limit.
ghost use Rattle.std.specs.Prelude.{◌≡◌, ◌+◌};
ghost use Rattle.codes.specs.Code.{recs_in};
ghost use Rattle.growth.specs.Page.{page};
ghost use Rattle.walks.specs.LabelMarks.{drawings_of};
ghost use Rattle.walks.specs.EmbeddingLists.{ListsKept};
ghost use Rattle.growing.specs.ListsHanded.{ListsBelow, ListsAt};
ghost use Rattle.growing.specs.GrowthOutcomes.{CanGrowPattern, PatternGrown, CanWalkCandidates, CandidatesWalked};
ghost use Rattle.extending.specs.HeldCode.{CodeHeld, CodeKept};

use candidates::choose::CANDIDATES;
use choosing::next::choose_next;
use embeddings::rows::KEPT;
use label_ranks::ranks::{ALPHABET, LABELS};
use listing::level::ENDS;
use looking::ahead::next_hopeful;
use marking::cells::PLACES;
use records::code::Code;
use surveys::labels::TABLES;
use taking::take::{TakenOn, take_on};

// What a catalogue is asked for: the number of the survey's labels, of how many cranes drawings have to contain a pattern, how many
// cables it may have, and whether a list is checked, not written.
#[derive(Clone, Copy)]
pub struct Settings {
    pub labels: usize,
    pub threshold: usize,
    pub limit: usize,
    pub checking: bool,
}

// Grows the pattern of a code, which the drawings of a cell contain: its records stand in front in `code`, the kinds of its devices
// in `kinds`, and it grows in place. `listed` tells whether the embeddings of the code without its last record are listed. Answers how
// many entries stand in the list then, or none where the next one cannot.
#[cycle(grow_walk)]
pub fn grow(
    survey: &[u8],
    labels: &[u32; TABLES],
    rank: &[u16; LABELS],
    alphabet: &[u32; ALPHABET],
    settings: Settings,
    code: &mut [u8; Code::BYTES],
    kinds: &mut [u8; 10],
    cables: usize,
    devices: usize,
    cell: u64,
    cells: &mut [u64; PLACES],
    seen: &mut [u16; PLACES],
    list: &mut [u64; CANDIDATES],
    base: usize,
    listed: bool,
    kept: &mut [u8; KEPT],
    ends: &mut [usize; ENDS],
    given: &[u8],
    output: &mut [u8],
    count: usize,
) -> Option<usize>
    requires { CanGrowPattern survey.now labels.now rank.now alphabet.now settings (recs_in cables code.old) cell
        cells.old seen.old list.old base (page settings.checking given.now output.old) count
        × CodeHeld code.old kinds.old cables devices
        × ListsBelow (drawings_of survey.now) (recs_in cables code.old) cables listed kept.old ends.old }
    ensures { PatternGrown survey.now settings (recs_in cables code.old) cells.new seen.new
        list.old base list.new (page settings.checking given.now output.old) count result
        (page settings.checking given.now output.new)
        × CodeKept cables devices code.old kinds.old code.new kinds.new
        × ListsKept cables kept.old ends.old kept.new ends.new }
{
    let written = match take_on(
        code,
        cables,
        devices,
        cell,
        settings.limit,
        settings.checking,
        given,
        output,
        count,
    ) {
        TakenOn::On(more) => more,
        TakenOn::Over(more) => return Some(more),
        TakenOn::Stopped => return None,
    };
    let next = choose_next(
        survey,
        labels,
        rank,
        settings.labels,
        settings.threshold,
        code,
        cables,
        cell,
        cells,
        seen,
        list,
        base,
        listed,
        kept,
        ends,
    );
    walk(
        survey,
        labels,
        rank,
        alphabet,
        settings,
        code,
        kinds,
        cables,
        devices,
        0,
        cells,
        seen,
        list,
        base,
        next.top,
        next.listed,
        kept,
        ends,
        given,
        output,
        written,
    )
}

// Grows a code by each candidate of a part of the list in turn. A loop and no call for each: there may be 20,480. `listed` tells
// whether the embeddings of the code are listed.
#[cycle(grow_walk)]
pub fn walk(
    survey: &[u8],
    labels: &[u32; TABLES],
    rank: &[u16; LABELS],
    alphabet: &[u32; ALPHABET],
    settings: Settings,
    code: &mut [u8; Code::BYTES],
    kinds: &mut [u8; 10],
    cables: usize,
    devices: usize,
    kind: u8,
    cells: &mut [u64; PLACES],
    seen: &mut [u16; PLACES],
    list: &mut [u64; CANDIDATES],
    from: usize,
    top: usize,
    listed: bool,
    kept: &mut [u8; KEPT],
    ends: &mut [usize; ENDS],
    given: &[u8],
    output: &mut [u8],
    count: usize,
) -> Option<usize>
    requires { CanWalkCandidates survey.now labels.now rank.now alphabet.now settings (recs_in cables code.old) kind
        cells.old seen.old list.old from top (page settings.checking given.now output.old) count
        × CodeHeld code.old kinds.old cables devices
        × ListsAt (drawings_of survey.now) (recs_in cables code.old) cables listed kept.old ends.old }
    ensures { CandidatesWalked survey.now alphabet.now settings kind (recs_in cables code.old)
        cells.new seen.new list.old from top list.new
        (page settings.checking given.now output.old) count result
        (page settings.checking given.now output.new)
        × CodeKept cables devices code.old kinds.old code.new kinds.new
        × ListsKept (cables + 1) kept.old ends.old kept.new ends.new }
{
    let mut written = count;
    let mut k = from;
    while let Some(next) = next_hopeful(
        code,
        kinds,
        cables,
        devices,
        kind,
        alphabet,
        settings.labels,
        list,
        k,
        top,
    ) {
        written = grow(
            survey,
            labels,
            rank,
            alphabet,
            settings,
            code,
            kinds,
            cables + 1,
            next.wider,
            next.cell,
            cells,
            seen,
            list,
            top,
            listed,
            kept,
            ends,
            given,
            output,
            written,
        )?;
        k = next.at + 1;
    }
    Some(written)
}
