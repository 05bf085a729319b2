// Each kind of answer as one number: those of lists, of codes, of matching.
ghost use Rattle.std.specs.Prelude.{◌≡◌, ◌≤◌, ◌<◌};
ghost use Rattle.records.specs.Catalogued.{catalogued_refusal, catalogued_count};
ghost use Rattle.records.specs.ListsChecked.{list_refusal, list_value};
ghost use Rattle.code_checks.specs.Answers.{written_numbers, verdict_agreement, verdict_numbers, compared_agreement, compared_numbers};
ghost use Rattle.matching.specs.MatchAnswers.{match_refusal, match_count, same_refusal, same_value};
ghost use Rattle.answer_numbers.specs.Packed.{packed, packed_numbers};

use crate::number::{agreed, order_number, refused};
use code_checks::answer::{Comparison, Verdict};
use records::refusal::{Fault, Refusal};

// A list's refusal names a drawing of the survey, and there are 32 at most.
pub fn catalogued_number(answer: Result<usize, Fault>) -> u64
    requires { (catalogued_refusal answer).drawing < 32 }
    ensures { result ≡ packed (catalogued_refusal answer).number (catalogued_count answer) (catalogued_refusal answer).drawing }
{
    match answer {
        Ok(count) => count as u64,
        Err(fault) => refused(fault),
    }
}

// 1 yes, 0 no.
pub fn list_number(answer: Result<bool, Fault>) -> u64
    requires { (list_refusal answer).drawing < 32 }
    ensures { result ≡ packed (list_refusal answer).number (list_value answer) (list_refusal answer).drawing }
{
    catalogued_number(answer.map(usize::from))
}

// The other calls' refusals name no drawing.
pub fn written_number(answer: Result<usize, Refusal>) -> u64
    ensures { result ≡ packed_numbers (written_numbers answer) }
{
    catalogued_number(answer.map_err(Fault::from))
}

pub fn verdict_number(answer: Result<Verdict, Refusal>) -> u64
    requires { verdict_agreement answer ≤ 20 }
    ensures { result ≡ packed_numbers (verdict_numbers answer) }
{
    written_number(answer.map(|verdict| agreed(verdict.agreement, usize::from(verdict.least))))
}

pub fn compared_number(answer: Result<Comparison, Refusal>) -> u64
    requires { compared_agreement answer ≤ 20 }
    ensures { result ≡ packed_numbers (compared_numbers answer) }
{
    written_number(answer.map(|compared| agreed(compared.agreement, order_number(compared.order))))
}

// 0 where there is no map.
pub fn matched_number(answer: Result<Option<usize>, Refusal>) -> u64
    ensures { result ≡ packed (match_refusal answer) (match_count answer) 0 }
{
    written_number(answer.map(|map| map.unwrap_or(0)))
}

// 1 yes, 0 no.
pub fn sameness_number(answer: Result<bool, Refusal>) -> u64
    ensures { result ≡ packed (same_refusal answer) (same_value answer) 0 }
{
    written_number(answer.map(usize::from))
}
