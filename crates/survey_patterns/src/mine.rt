// Mining a survey: the patterns kind by kind of device 0, in which order their codes rise.
ghost use Rattle.std.specs.Prelude.{◌≡◌, length};
ghost use Rattle.growth.specs.Page.{page};
ghost use Rattle.growth.specs.Sizes.{candidates_size};
ghost use Rattle.walks.specs.Counts.{Blank};
ghost use Rattle.walks.specs.EmbeddingLists.{ListsSized};
ghost use Rattle.survey_patterns.specs.SurveyMined.{CanMine, Mined, CanMineKind, KindMined};

use candidates::choose::{CANDIDATES, choose};
use embeddings::rows::KEPT;
use first_records::firsts::count_firsts;
use growing::grow::{Settings, walk};
use label_ranks::kinds::{KINDS, kinds_of};
use label_ranks::ranks::{ALPHABET, LABELS};
use listing::level::ENDS;
use marking::cells::PLACES;
use records::code::Code;
use surveys::labels::TABLES;

// Lists an entry for every pattern whose device 0 has this kind, behind those that are listed. The code grows in place in two
// arrays. Answers how many entries stand in the list then, or none where the next one cannot.
fn mine_kind(
    survey: &[u8],
    labels: &[u32; TABLES],
    rank: &[u16; LABELS],
    alphabet: &[u32; ALPHABET],
    settings: Settings,
    kind: u8,
    cells: &mut [u64; PLACES],
    seen: &mut [u16; PLACES],
    list: &mut [u64; CANDIDATES],
    kept: &mut [u8; KEPT],
    ends: &mut [usize; ENDS],
    given: &[u8],
    output: &mut [u8],
    written: usize,
) -> Option<usize>
    requires { CanMineKind survey.now labels.now rank.now alphabet.now settings kind
        cells.old seen.old list.old kept.old ends.old
        (page settings.checking given.now output.old) written }
    ensures { KindMined survey.now settings kind cells.old seen.old list.old
        (page settings.checking given.now output.old) written result cells.new seen.new
        list.new kept.new ends.new (page settings.checking given.now output.new) }
{
    let found = count_firsts(survey, labels, rank, settings.labels, kind, cells, seen);
    let top = choose(labels, cells, seen, found, settings.threshold, list, 0);
    let mut code = [0; Code::BYTES];
    let mut kinds = [0; 10];
    walk(
        survey, labels, rank, alphabet, settings, &mut code, &mut kinds, 0, 0, kind, cells, seen,
        list, 0, top, true, kept, ends, given, output, written,
    )
}

// Lists an entry for every pattern that drawings of enough cranes contain, kind by kind.
pub fn mine(
    survey: &[u8],
    labels: &[u32; TABLES],
    rank: &[u16; LABELS],
    alphabet: &[u32; ALPHABET],
    settings: Settings,
    cells: &mut [u64; PLACES],
    seen: &mut [u16; PLACES],
    list: &mut [u64; CANDIDATES],
    kept: &mut [u8; KEPT],
    ends: &mut [usize; ENDS],
    given: &[u8],
    output: &mut [u8],
) -> Option<usize>
    requires { CanMine survey.now labels.now rank.now alphabet.now settings
        × Blank cells.old seen.old × (length list.old ≡ candidates_size) × ListsSized kept.old ends.old }
    ensures { Mined survey.now settings (page settings.checking given.now output.old) result
        (page settings.checking given.now output.new) }
{
    let mut written = 0;
    let occurs = kinds_of(survey);
    for kind in 0..KINDS {
        if occurs[kind] {
            written = mine_kind(
                survey, labels, rank, alphabet, settings, kind as u8, cells, seen, list, kept,
                ends, given, output, written,
            )?;
        }
    }
    Some(written)
}
