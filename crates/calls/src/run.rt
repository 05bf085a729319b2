// A call by its settings, with what it answers and leaves in the lent bytes printed.
use crate::book::write_kinds;
use crate::request::ListedCall;
use drawing_calls::ask::ask;
use drawing_calls::write::write_one;
use records::refusal::Fault;
use survey_calls::catalogue::write_entries;
use survey_calls::check::ask_list;
use survey_calls::fetch::fetch_listed;
use transcript::answer::Answer;
use transcript::call::{Call, NoSuchCall};
use transcript::print::{print_answer, print_bytes};

// As many bytes as a call may be lent.
const ROOM: usize = 16384;

// What every lent byte holds before a call.
const LENT: u8 = 238;

// Makes a call that is lent output, and prints the answer and the lent bytes; nothing where so many are not there.
fn run_lent<F: FnOnce(&mut [u8]) -> Result<Answer, Fault>>(request: ListedCall<'_>, write: F)
    requires { F.IsAlwaysCallable write }
{
    let mut output = [LENT; ROOM];
    if let Some(lent) = output.get_mut(..request.lent()) {
        print_answer(request.name, write(lent));
        print_bytes(lent);
    }
}

// The second argument of the reader's call is the numbers of three drawings, that of a check the list.
pub fn run_call(request: ListedCall<'_>) {
    let ListedCall {
        name,
        first,
        second,
        ..
    } = request;
    let call = request.call();
    let threshold = request.threshold();
    let limit = request.limit();
    match Call::try_from(call) {
        Ok(Call::Question(_)) => print_answer(name, ask(call, first, second)),
        Ok(Call::Fetch) => {
            io::write_all(1, name);
            fetch_listed(first, second);
        }
        Ok(Call::Writing(_)) => run_lent(request, |lent| write_one(call, first, second, lent)),
        Ok(Call::Catalogue(_)) => run_lent(request, |lent| {
            write_entries(call, first, threshold, limit, lent)
        }),
        Ok(Call::Book) => run_lent(request, |lent| write_kinds(first, limit, lent)),
        Ok(Call::ListCheck(_)) => {
            print_answer(name, ask_list(call, first, threshold, limit, second))
        }
        Err(NoSuchCall) => print_answer(name, Ok(Answer::NO_CALL)),
    }
}
