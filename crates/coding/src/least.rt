// Whether a code is the least of the drawing that it describes, and how far it agrees with the least one: up to the first record before which some
// start of that drawing has another. A lone device has no other code.
ghost use Rattle.std.specs.Prelude.{◌≡◌};
ghost use Rattle.coding.specs.LeastSays.{verdict_of, LeastSays};

use code_checks::answer::Verdict;
use code_checks::check::{check_code, is_lone};
use least_test::starts::first_of_starts;
use records::code::Code;
use records::drawing::Drawing;
use records::refusal::Refusal;
use tables::table::labels_of_code;
use tables::twins::twins_of;

// The verdict on a code that agrees with the least one in so many of its records.
fn verdict(agreement: usize, records: usize) -> Verdict
    ensures { result ≡ verdict_of agreement records }
{
    Verdict {
        least: agreement == records,
        agreement,
    }
}

// Whether a code is the least of the drawing that it describes, and how far it agrees with the least one. No start is enough before all have
// told: the first that comes before the code need not be the least.
pub fn is_least(code: &[u8]) -> Result<Verdict, Refusal>
    ensures { LeastSays code.now result }
{
    check_code(code)?;
    if is_lone(code) {
        return Ok(verdict(1, 1));
    }
    let table = labels_of_code(code);
    let twins = twins_of(&table);
    let records = code.len() / Code::RECORD_BYTES;
    let agreement = first_of_starts(
        &table,
        &twins,
        code,
        records,
        0,
        Drawing::MOST_DEVICES,
        true,
    );
    Ok(verdict(agreement, records))
}
