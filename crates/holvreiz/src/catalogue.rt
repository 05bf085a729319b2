// The catalogue, the book and the check of a list for other languages.
ghost use Rattle.mining.specs.UsualSettings.{usual, former};
ghost use Rattle.holvreiz.specs.Returns.{CatalogueReturns, BookReturns, CheckReturns};

use answer_numbers::answers::{catalogued_number, list_number};
use mining::catalogue::write_catalogue;
use mining::check::{check_four, check_list, check_usual};
use pattern_book::book::write_book;

// The catalogue of a survey: the patterns of at most `limit` cables that drawings of at least `threshold` cranes contain. The count is
// the number of entries written.
#[unsafe(no_mangle)]
pub extern "C" fn holvreiz_catalogue(
    survey: &[u8],
    threshold: u32,
    limit: u32,
    output: &mut [u8],
) -> u64
    ensures { CatalogueReturns survey.now threshold limit result output.old output.new }
{
    catalogued_number(write_catalogue(survey, threshold, limit, output))
}

// The book of all small patterns: those of at most `limit` cables, with device kinds below a and cable kinds below b. The count is
// the number of entries written.
#[unsafe(no_mangle)]
pub extern "C" fn holvreiz_book(a: u32, b: u32, limit: u32, output: &mut [u8]) -> u64
    ensures { BookReturns a b limit result output.old output.new }
{
    catalogued_number(write_book(a, b, limit, output))
}

// Whether a list is the catalogue that `holvreiz_catalogue` would write. The count is 1 for yes, 0 for no.
#[unsafe(no_mangle)]
pub extern "C" fn holvreiz_check_list(survey: &[u8], threshold: u32, limit: u32, list: &[u8]) -> u64
    ensures { CheckReturns survey.now threshold limit list.now result }
{
    list_number(check_list(survey, threshold, limit, list))
}

// The same of the usual catalogue: what drawings of at least two cranes contain, up to six cables.
#[unsafe(no_mangle)]
pub extern "C" fn holvreiz_check_usual(survey: &[u8], list: &[u8]) -> u64
    ensures { CheckReturns survey.now usual.threshold usual.limit list.now result }
{
    list_number(check_usual(survey, list))
}

// The same of the catalogue that was usual before, up to four cables.
#[unsafe(no_mangle)]
pub extern "C" fn holvreiz_check_four(survey: &[u8], list: &[u8]) -> u64
    ensures { CheckReturns survey.now former.threshold former.limit list.now result }
{
    list_number(check_four(survey, list))
}
