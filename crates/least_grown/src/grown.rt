// Whether a code that has grown is the least of the drawing that it describes: the test of a search that makes many codes. The code
// without its last record is known to be least, and that record to overlook none, so that the code's own numbering sees nothing.
ghost use Rattle.laws.specs.Decides.{Decides};
ghost use Rattle.codes.specs.Code.{recs_in, code_records, decoded, Least};
ghost use Rattle.codes.specs.OwnNumbering.{WellGrown};
ghost use Rattle.least_seen.specs.Betters.{SomeStart};
ghost use Rattle.least_seen.specs.Accepting.{AcceptedFront};
ghost use Rattle.least_grown.specs.GrownCode.{GrownCode};

use crate::clear::clearly_least;
use crate::ties::own_tie;
use least_test::starts::first_of_starts;
use records::code::Code;
use records::drawing::Drawing;
use tables::table::labels_of_code;

// Whether some start comes before a code: how far the code agrees with the least one is not asked for, so that the first start that does is
// enough. No twins are noted: among the codes that are grown to be tested here, looking for them costs more than it spares.
fn start_before(code: &[u8], m: usize, n: usize) -> bool
    requires { GrownCode code.now m n }
    ensures { Decides result (SomeStart (code_records code.now) m) }
{
    let table = labels_of_code(code);
    let own = own_tie(&table, code, m, n);
    let none = [Drawing::MOST_DEVICES as u8; Drawing::MOST_DEVICES];
    first_of_starts(&table, &none, code, m, m - 1, n, own) < m
}

// Whether an accepted code of m records, of n devices, that has grown well is the least of the drawing that it describes.
pub fn least_grown(code: &[u8; Code::BYTES], m: usize, n: usize) -> bool
    requires { AcceptedFront code.now m n × WellGrown (recs_in m code.now) }
    ensures { Decides result (Least (decoded (recs_in m code.now)) (recs_in m code.now)) }
{
    let front = &code[..Code::RECORD_BYTES * m];
    clearly_least(front, m) || !start_before(front, m, n)
}
