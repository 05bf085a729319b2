// Comparing two codes: which comes first in the order of codes, and how many whole records they agree in.
ghost use Rattle.std.specs.Prelude.{◌≡◌};
ghost use Rattle.codes.specs.Code.{code_records};
ghost use Rattle.comparing.specs.Comparing.{codes_answer, CompareSays};

use code_checks::answer::Comparison;
use code_checks::check::check_code;
use code_records::record::Record;
use records::code::Code;
use records::refusal::Refusal;

// Decided at the first record that differs, record k behind k equal ones; a code that begins another comes before it.
#[tactic(auto, using(crate::specs::ComparingLaws::records_compared))]
pub fn codes_compared(first: &[u8], second: &[u8]) -> Comparison
    ensures { result ≡ codes_answer (code_records first.now) (code_records second.now) }
{
    let n = first.len() / Code::RECORD_BYTES;
    let m = second.len() / Code::RECORD_BYTES;
    // By number and not by chunks of five: the number is the agreement, and `Record::at` takes it.
    for k in 0..n.min(m) {
        let order = Record::at(first, k).order(Record::at(second, k));
        if order.is_ne() {
            return Comparison {
                order,
                agreement: k,
            };
        }
    }
    Comparison {
        order: n.cmp(&m),
        agreement: n.min(m),
    }
}

// Where the first of two codes comes; the first one is checked fully before the second.
#[tactic(auto, using(crate::specs::ComparingLaws::compare_first, crate::specs::ComparingLaws::compare_second, crate::specs::ComparingLaws::compare_accepted))]
pub fn compare(first: &[u8], second: &[u8]) -> Result<Comparison, Refusal>
    ensures { CompareSays first.now second.now result }
{
    check_code(first)?;
    check_code(second)?;
    Ok(codes_compared(first, second))
}
