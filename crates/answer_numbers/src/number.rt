// An answer as one number: (drawing * 256 + refusal) * 2^32 + count.
ghost use Rattle.std.specs.Prelude.{◌≡◌, ◌+◌, ◌*◌, ◌≤◌, ◌<◌};
ghost use Rattle.code_checks.specs.Answers.{order_number};
ghost use Rattle.records.specs.Refusals.{number_of};
ghost use Rattle.answer_numbers.specs.Packed.{packed};

use records::refusal::Fault;
use std::cmp::Ordering;

// Numbers below these are the count, and the refusal above it: 32 bits and 8.
const COUNTS: u64 = 4294967296;

const REFUSALS: u64 = 256;

// Numbers below this are what a count tells beside how far two codes agree: 8 bits.
const TOLD: usize = 256;

// A refusal, with the drawing at fault, 0 where no drawing is.
pub(crate) fn refused(fault: Fault) -> u64
    requires { fault.drawing < 32 }
    ensures { result ≡ packed (number_of fault.refusal) 0 fault.drawing }
{
    let drawing = fault.drawing as u64;
    let refusal = u64::from(fault.refusal.number());
    (drawing * REFUSALS + refusal) * COUNTS
}

// What is counted where a call tells how far two codes agree; a code has 20 records at most.
pub(crate) fn agreed(agreement: usize, told: usize) -> usize
    requires { (agreement ≤ 20) × (told < 256) }
    ensures { result ≡ 256 * agreement + told }
{
    TOLD * agreement + told
}

// 0 equal, 1 before, 2 after.
pub(crate) fn order_number(order: Ordering) -> usize
    ensures { result ≡ order_number order }
{
    match order {
        Ordering::Equal => 0,
        Ordering::Less => 1,
        Ordering::Greater => 2,
    }
}
