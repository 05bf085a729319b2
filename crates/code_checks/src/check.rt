// Whether a code is accepted: the one record of a lone device, or its length and then record by record that it is a permitted
// step with the right kinds.
ghost use Rattle.std.specs.Prelude.{◌≡◌, length};
ghost use Rattle.codes.specs.Code.{code_records};
ghost use Rattle.codes.specs.SectionCode.{lone_bytes};
ghost use Rattle.readings.specs.Readings.{code_length_checked, code_checked};
ghost use Rattle.code_checks.specs.SectionChecks.{lone_checked, section_code_checked};

use code_records::record::Record;
use readings::reading::Reading;
use records::code::Code;
use records::refusal::Refusal;

// Whether a code is read as a lone device's: one record, from device 0 to itself.
#[tactic(auto, using(crate::specs::SectionCheckLaws::not_five, crate::specs::SectionCheckLaws::five_lone))]
pub fn is_lone(code: &[u8]) -> bool
    ensures { result ≡ lone_bytes code.now }
{
    if code.len() != Code::RECORD_BYTES {
        return false;
    }
    let only = Record::at(code, 0);
    only.i == 0 && only.j == 0
}

// Such a record has no cable, and the device's kind twice.
#[tactic(auto, using(crate::specs::SectionCheckLaws::five_checked), unfolding(crate::specs::SectionChecks::lone_checked))]
fn check_lone(code: &[u8]) -> Result<(), Refusal>
    requires { length code.now ≡ 5 }
    ensures { result ≡ lone_checked (code_records code.now) }
{
    let only = Record::at(code, 0);
    if only.c != 0 {
        return Err(Refusal::Step(0));
    }
    if only.ki != only.kj {
        return Err(Refusal::Kind(0));
    }
    Ok(())
}

// Whether the bytes are whole records, and neither none nor too many.
#[tactic(auto, unfolding(readings::specs::Readings::code_length_checked))]
fn check_length(code: &[u8]) -> Result<(), Refusal>
    ensures { result ≡ code_length_checked code.now }
{
    let length = code.len();
    if length == 0 || Code::BYTES < length || length % Code::RECORD_BYTES != 0 {
        return Err(Refusal::CodeLength);
    }
    Ok(())
}

// The first reason to refuse a DFS code: its length, then record by record that it is no step, or that a kind differs.
#[tactic(auto, using(crate::specs::CheckLaws::steps_read), unfolding(readings::specs::Readings::StepSays))]
fn check_steps(code: &[u8]) -> Result<(), Refusal>
    ensures { result ≡ code_checked code.now }
{
    check_length(code)?;
    let mut reading = Reading::new();
    // By number and not by chunks of five: a refusal tells the record's number, and `Record::at` takes it.
    for k in 0..code.len() / Code::RECORD_BYTES {
        let next = Record::at(code, k);
        let place = reading.step(next).ok_or(Refusal::Step(k))?;
        if !reading.kinds_match(next) {
            return Err(Refusal::Kind(k));
        }
        reading = reading.stepped(place, next);
    }
    Ok(())
}

// The first reason to refuse a code.
#[tactic(auto, using(codes::specs::SectionBytes::lone_bytes_parts, crate::specs::SectionCheckLaws::checked_lone, crate::specs::SectionCheckLaws::checked_cabled))]
pub fn check_code(code: &[u8]) -> Result<(), Refusal>
    ensures { result ≡ section_code_checked code.now }
{
    if is_lone(code) {
        return check_lone(code);
    }
    check_steps(code)
}
