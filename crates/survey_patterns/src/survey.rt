// Mining an accepted survey: its tables and the arrays of the search stand here and are lent on; there is no heap. A catalogue that is
// written and one that is checked come by this one way.
ghost use Rattle.growth.specs.Page.{page};
ghost use Rattle.growth.specs.Settings.{AcceptedSettings};
ghost use Rattle.survey_patterns.specs.SurveyMined.{CanMine, Mined, SurveyListed};

use crate::mine::mine;
use candidates::choose::CANDIDATES;
use embeddings::rows::KEPT;
use growing::grow::Settings;
use label_ranks::ranks::{ALPHABET, LABELS, rank_labels};
use listing::level::ENDS;
use marking::cells::PLACES;
use sheets::note::note_sheets;
use surveys::bits::note_bits;
use surveys::labels::{TABLES, fill_labels};

// Lists all patterns of a survey whose tables are at hand.
fn mine_prepared(
    survey: &[u8],
    labels: &[u32; TABLES],
    rank: &[u16; LABELS],
    alphabet: &[u32; ALPHABET],
    settings: Settings,
    given: &[u8],
    output: &mut [u8],
) -> Option<usize>
    requires { CanMine survey.now labels.now rank.now alphabet.now settings }
    ensures { Mined survey.now settings (page settings.checking given.now output.old) result
        (page settings.checking given.now output.new) }
{
    let mut cells = [0; PLACES];
    let mut seen = [0; PLACES];
    let mut list = [0; CANDIDATES];
    let mut kept = [0; KEPT];
    let mut ends = [0; ENDS];
    mine(
        survey, labels, rank, alphabet, settings, &mut cells, &mut seen, &mut list, &mut kept,
        &mut ends, given, output,
    )
}

// Lists all patterns of at most `limit` cables that drawings of at least `threshold` cranes contain: in the output or, where a list is
// checked, as far as the list that is given has them. Answers how many entries stand there, or none where the next one cannot: it does
// not fit, or a list that is checked has another.
pub fn mine_survey(
    survey: &[u8],
    threshold: usize,
    limit: usize,
    checking: bool,
    given: &[u8],
    output: &mut [u8],
) -> Option<usize>
    requires { AcceptedSettings survey.now threshold limit }
    ensures { SurveyListed survey.now threshold limit checking
        (page checking given.now output.old) result (page checking given.now output.new) }
{
    let mut labels = [0; TABLES];
    fill_labels(survey, &mut labels);
    let mut rank = [0; LABELS];
    let mut alphabet = [0; ALPHABET];
    let n = rank_labels(survey, &mut rank, &mut alphabet);
    note_bits(survey, &mut labels, &rank, n);
    note_sheets(survey, &mut labels);
    let settings = Settings {
        labels: n,
        threshold,
        limit,
        checking,
    };
    mine_prepared(survey, &labels, &rank, &alphabet, settings, given, output)
}
