// The C interface as an archive: each export calls the function of the same name of `holvreiz`, and promises the same. bindings/ has the
// header for C and the wrapper for Rust.
#![tactic(auto)]

ghost use Rattle.mining.specs.UsualSettings.{usual, former};
ghost use Rattle.holvreiz.specs.Returns.{CodeReturns, DecodeReturns, LeastReturns, CompareReturns, MatchReturns, SameReturns, CatalogueReturns, BookReturns, CheckReturns};

use holvreiz::{catalogue, code, map};

#[unsafe(no_mangle)]
pub extern "C" fn holvreiz_code(drawing: &[u8], output: &mut [u8]) -> u64
    ensures { CodeReturns drawing.now result output.old output.new }
{
    code::holvreiz_code(drawing, output)
}

#[unsafe(no_mangle)]
pub extern "C" fn holvreiz_decode(code: &[u8], output: &mut [u8]) -> u64
    ensures { DecodeReturns code.now result output.old output.new }
{
    code::holvreiz_decode(code, output)
}

#[unsafe(no_mangle)]
pub extern "C" fn holvreiz_is_least(code: &[u8]) -> u64
    ensures { LeastReturns code.now result }
{
    code::holvreiz_is_least(code)
}

#[unsafe(no_mangle)]
pub extern "C" fn holvreiz_compare(first: &[u8], second: &[u8]) -> u64
    ensures { CompareReturns first.now second.now result }
{
    code::holvreiz_compare(first, second)
}

#[unsafe(no_mangle)]
pub extern "C" fn holvreiz_match(pattern: &[u8], drawing: &[u8], output: &mut [u8]) -> u64
    ensures { MatchReturns pattern.now drawing.now result output.old output.new }
{
    map::holvreiz_match(pattern, drawing, output)
}

#[unsafe(no_mangle)]
pub extern "C" fn holvreiz_same(first: &[u8], second: &[u8]) -> u64
    ensures { SameReturns first.now second.now result }
{
    map::holvreiz_same(first, second)
}

#[unsafe(no_mangle)]
pub extern "C" fn holvreiz_catalogue(
    survey: &[u8],
    threshold: u32,
    limit: u32,
    output: &mut [u8],
) -> u64
    ensures { CatalogueReturns survey.now threshold limit result output.old output.new }
{
    catalogue::holvreiz_catalogue(survey, threshold, limit, output)
}

#[unsafe(no_mangle)]
pub extern "C" fn holvreiz_book(a: u32, b: u32, limit: u32, output: &mut [u8]) -> u64
    ensures { BookReturns a b limit result output.old output.new }
{
    catalogue::holvreiz_book(a, b, limit, output)
}

#[unsafe(no_mangle)]
pub extern "C" fn holvreiz_check_list(survey: &[u8], threshold: u32, limit: u32, list: &[u8]) -> u64
    ensures { CheckReturns survey.now threshold limit list.now result }
{
    catalogue::holvreiz_check_list(survey, threshold, limit, list)
}

#[unsafe(no_mangle)]
pub extern "C" fn holvreiz_check_usual(survey: &[u8], list: &[u8]) -> u64
    ensures { CheckReturns survey.now usual.threshold usual.limit list.now result }
{
    catalogue::holvreiz_check_usual(survey, list)
}

#[unsafe(no_mangle)]
pub extern "C" fn holvreiz_check_four(survey: &[u8], list: &[u8]) -> u64
    ensures { CheckReturns survey.now former.threshold former.limit list.now result }
{
    catalogue::holvreiz_check_four(survey, list)
}
