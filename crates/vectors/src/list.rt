// The list of calls. A call is four parts: its name, its settings (which call, s, L, how many bytes are lent) and its two
// arguments. Settings are numbers of two bytes, the low one first.
ghost use Rattle.std.specs.Prelude.{◌<◌, length};
ghost use Rattle.std.specs.Option.{IfSome};

use calls::request::ListedCall;
use calls::run::run_call;
use transcript::part::split_part;

// Runs the call in front and gives what follows it, or none where no whole call is.
fn run_next(list: &[u8]) -> Option<&[u8]>
    ensures { IfSome result (λ rest. length rest.now < length list.now) }
{
    let (name, rest) = split_part(list)?;
    let (settings, rest) = split_part(rest)?;
    let (first, rest) = split_part(rest)?;
    let (second, rest) = split_part(rest)?;
    run_call(ListedCall {
        name,
        settings,
        first,
        second,
    });
    Some(rest)
}

// Runs the calls of a list, as far as they are whole.
pub fn run_all(list: &[u8]) {
    let mut left = list;
    while !left.is_empty() {
        match run_next(left) {
            Some(rest) => left = rest,
            None => {
                io::write_all(1, b"malformed list\n");
                return;
            }
        }
    }
}
