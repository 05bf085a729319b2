// All codes that go on from a branch, against the best so far. The best code goes through every branch: a branch that can only
// give a later code is left, and one that can give an earlier code cuts it. Numbers are given in place and taken back, and the
// best code stands in one array, so that nothing is copied.
ghost use Rattle.std.specs.Prelude.{◌≡◌, ◌<◌, length, Some};
ghost use Rattle.codes.specs.Code.{recs_in};
ghost use Rattle.codes.specs.BranchState.{first_state};
ghost use Rattle.codes.specs.Twins.{TwinsNoted};
ghost use Rattle.branches.specs.Branches.{in_place, SameArrays};
ghost use Rattle.least_below.specs.Searches.{SearchFrom, SearchDone, EdgesFrom, WaysDone, SomeAnewFrom, AnewDone};

use branches::branch::{give_number, take_number};
use branches::extension::{Extension, least_extension};
use branches::next::next_record;
use branches::ways::next_tie;
use code_records::record::{Record, put_record};
use least_seen::met::{Met, meet_row};
use records::code::Code;
use records::drawing::Drawing;
use tables::table::CELLS;

// All codes that begin with the t records of a branch. Each call lists one cable more, so that the number of unlisted cables
// falls. Where the best code has a record t, the branch is first held against that: most branches tie with it or come after it.
#[cycle(search_anew_search_below_search_edges)]
fn search_below(
    drawing: &[u8],
    table: &[u32; CELLS],
    twins: &[u8; Drawing::MOST_DEVICES],
    m: usize,
    t: usize,
    numbers: &mut [u8; Drawing::MOST_DEVICES],
    used: &mut [bool; Drawing::MOST_DEVICES],
    path: &mut [u8; Drawing::MOST_DEVICES],
    count: usize,
    given: usize,
    low: usize,
    best: &mut [u8; Code::BYTES],
    held: usize,
) -> usize
    requires { SearchFrom drawing.now table.now m (recs_in t best.old)
        (in_place numbers.old used.old path.old count given low) (recs_in held best.old)
        × TwinsNoted table.now twins.now × (length best.old ≡ 100) }
    ensures { SearchDone drawing.now (recs_in t best.old)
        (in_place numbers.old used.old path.old count given low)
        (recs_in held best.old) (recs_in result best.new)
        × SameArrays numbers.old numbers.new used.old used.new
        path.old path.new × (length best.new ≡ 100) }
{
    if t == m {
        return held;
    }
    if t < held {
        let row = Record::at(best, t);
        match meet_row(table, numbers, used, path, count, low, row) {
            Met::Later => return held,
            Met::Back => return search_below(
                drawing,
                table,
                twins,
                m,
                t + 1,
                numbers,
                used,
                path,
                count,
                given,
                usize::from(row.j) + 1,
                best,
                held,
            ),
            Met::Front(q, l) => return search_edges(
                drawing, table, twins, m, t, numbers, used, path, count, given, low, q, l, best,
                held,
            ),
            Met::Earlier => {}
        }
    }
    search_anew(
        drawing, table, twins, m, t, numbers, used, path, count, given, low, best,
    )
}

// The same where the best code has no record t, or something that goes on comes before it: it is cut to t records, and the
// least record that goes on is its next. A backward one leads to one branch, which has the same numbers. None never comes: a
// cable is left.
#[cycle(search_anew_search_below_search_edges)]
fn search_anew(
    drawing: &[u8],
    table: &[u32; CELLS],
    twins: &[u8; Drawing::MOST_DEVICES],
    m: usize,
    t: usize,
    numbers: &mut [u8; Drawing::MOST_DEVICES],
    used: &mut [bool; Drawing::MOST_DEVICES],
    path: &mut [u8; Drawing::MOST_DEVICES],
    count: usize,
    given: usize,
    low: usize,
    best: &mut [u8; Code::BYTES],
) -> usize
    requires { SomeAnewFrom drawing.now table.now m (recs_in t best.old)
        (in_place numbers.old used.old path.old count given low)
        × TwinsNoted table.now twins.now × (length best.old ≡ 100) }
    ensures { AnewDone drawing.now table.now m (recs_in t best.old)
        (in_place numbers.old used.old path.old count given low) (recs_in result best.new)
        × SameArrays numbers.old numbers.new used.old used.new
        path.old path.new × (length best.new ≡ 100) }
{
    let found = least_extension(table, numbers, used, path, count, low);
    let next = next_record(drawing, numbers, path, count, given, found);
    put_record(best, t, next);
    let Some(extension) = found else {
        return t + 1;
    };
    match extension {
        Extension::Chord(_, _) => search_below(
            drawing,
            table,
            twins,
            m,
            t + 1,
            numbers,
            used,
            path,
            count,
            given,
            usize::from(next.j) + 1,
            best,
            t + 1,
        ),
        Extension::Edge(q, l) => search_edges(
            drawing,
            table,
            twins,
            m,
            t,
            numbers,
            used,
            path,
            count,
            given,
            low,
            q,
            l,
            best,
            t + 1,
        ),
    }
}

// The same where record t is forward, from place q along label l, and the best code's own: every device that it can go to is
// followed, since any of them may lead to the least code; but of exchangeable ones the first stands for all.
#[cycle(search_anew_search_below_search_edges)]
fn search_edges(
    drawing: &[u8],
    table: &[u32; CELLS],
    twins: &[u8; Drawing::MOST_DEVICES],
    m: usize,
    t: usize,
    numbers: &mut [u8; Drawing::MOST_DEVICES],
    used: &mut [bool; Drawing::MOST_DEVICES],
    path: &mut [u8; Drawing::MOST_DEVICES],
    count: usize,
    given: usize,
    low: usize,
    q: usize,
    l: u32,
    best: &mut [u8; Code::BYTES],
    held: usize,
) -> usize
    requires { EdgesFrom drawing.now table.now m t (in_place numbers.old used.old path.old count given low)
        q l best.old held
        × TwinsNoted table.now twins.now × (length best.old ≡ 100) }
    ensures { WaysDone drawing.now table.now t
        (in_place numbers.old used.old path.old count given low) (Some (Extension.Edge q l))
        best.old held best.new result 10
        × SameArrays numbers.old numbers.new used.old used.new
        path.old path.new × (length best.new ≡ 100) }
{
    let mut kept = held;
    let mut from = 0;
    while let Some(w) = next_tie(table, twins, numbers, used, path, q, l, from) {
        let was = give_number(numbers, used, path, given, q, w);
        kept = search_below(
            drawing,
            table,
            twins,
            m,
            t + 1,
            numbers,
            used,
            path,
            q + 2,
            given + 1,
            0,
            best,
            kept,
        );
        take_number(numbers, used, path, given, q, w, was);
        from = w + 1;
    }
    kept
}

// All codes that begin with one record, from device u to device w.
pub fn search_first(
    drawing: &[u8],
    table: &[u32; CELLS],
    twins: &[u8; Drawing::MOST_DEVICES],
    m: usize,
    u: usize,
    w: usize,
    best: &mut [u8; Code::BYTES],
    held: usize,
) -> usize
    requires { (u < 10) × (w < 10)
        × SearchFrom drawing.now table.now m (recs_in 1 best.old) (first_state u w) (recs_in held best.old)
        × TwinsNoted table.now twins.now × (length best.old ≡ 100) }
    ensures { SearchDone drawing.now (recs_in 1 best.old) (first_state u w)
        (recs_in held best.old) (recs_in result best.new) × (length best.new ≡ 100) }
{
    let mut numbers = [0; Drawing::MOST_DEVICES];
    numbers[0] = u as u8;
    numbers[1] = w as u8;
    let mut used = [false; Drawing::MOST_DEVICES];
    used[u] = true;
    used[w] = true;
    let mut path = [0; Drawing::MOST_DEVICES];
    path[1] = 1;
    search_below(
        drawing,
        table,
        twins,
        m,
        1,
        &mut numbers,
        &mut used,
        &mut path,
        2,
        2,
        0,
        best,
        held,
    )
}
