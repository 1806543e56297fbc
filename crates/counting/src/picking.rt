// Which code of a list has a given number of codes before it. The lists up to this one are tallied first. Then one walk
// goes down the links: each turn ends the code, takes the label or passes it by, as the tallies tell. Each turn leads to
// a lower number, and no more than 64 labels are taken, so the walk is short and stays in the output on any memory.
ghost use Rattle.std.specs.Prelude.{◌≡◌, ℕ, ◌+◌, ◌<◌, ◌≤◌, length, drop};
ghost use Rattle.ledger.specs.Diagrams.{Good, Sound};
ghost use Rattle.ledger.specs.Ledger.{codes};
ghost use Rattle.ledger.specs.Ordered.{ordered};
ghost use Rattle.counting.specs.Tallies.{Counted};
ghost use Rattle.counting.specs.Picks.{Picked, PickKeeps, Short, Writes};
ghost use Rattle.counting.specs.Courses.{Advances, AtMost, Falls, Keeps, Leads, LeftOf, Lower, Walkable};

use crate::tallying::{tally_at, tally_up_to};
use memory::reading::read_vertex;
use memory::shelf::Shelf;
use memory::work::Place;
use symbols::{LONGEST_CODE, Symbol};

// Why no code is picked: the list has 2^64 codes or more, or no code of it has so many before it.
#[derive(Clone, Copy, Debug, PartialEq, Eq)]
pub enum PickFault {
    TooMany,
    NoSuchCode,
}

// A code of a list: the one that has so many codes of the list before it.
#[derive(Clone, Copy)]
struct Spot {
    list: u32,
    before: u64,
}

// Where a pick has come: so many symbols are written, and the rest of the code is this one.
#[derive(Clone, Copy)]
struct Course {
    rest: Spot,
    // A length beside the output, which is lent by the call.
    length: usize,
}

// What a code of a list is: empty; or a code of the zero link; or the label, and then a code of the one link.
#[derive(Drop, Clone, Copy)]
enum Turn<S> {
    Ends,
    Passes(Spot),
    Takes(S, Spot),
}

// How many codes are left of those before, without these; nothing where these are more.
fn left_of(before: u64, these: Option<u64>) -> Option<u64>
    ensures small { AtMost before result }
    ensures value { (n : ℕ) → Counted n these → LeftOf before n result }
{
    before.checked_sub(these?)
}

// What this code is. The shelf and the work space stay two: what holds of both holds on sound shelves alone, so no type
// keeps it.
fn turn_at<S: Symbol, B: Shelf<S>>(shelf: &B, spot: Spot, work: &[Place]) -> Turn<S>
    ensures below { Lower spot result }
    ensures value { Walkable S.Symbol.before (B.Shelf.vertices shelf.now) spot work.now → Leads (B.Shelf.vertices shelf.now) spot result }
{
    let Some((label, zero, one)) = read_vertex(shelf, spot.list) else {
        return Turn::Ends;
    };
    let empty = u64::from(tally_at(work, spot.list).empty);
    let Some(later) = spot.before.checked_sub(empty) else {
        return Turn::Ends;
    };
    match left_of(later, tally_at(work, one).codes) {
        Some(left) => Turn::Passes(Spot {
            list: zero,
            before: empty + left,
        }),
        None => Turn::Takes(
            label,
            Spot {
                list: one,
                before: later,
            },
        ),
    }
}

// Makes a turn, and writes the label that it takes; nothing where the code ends.
fn advance<S: Symbol, B: Shelf<S>>(
    shelf: &B,
    course: Course,
    out: &mut [S],
    work: &[Place],
) -> Option<Course>
    requires within { course.length ≤ 64 }
    requires output { 64 ≤ length out.old }
    ensures below { Falls course result }
    ensures kept { Keeps out.old result out.new }
    ensures value { Walkable S.Symbol.before (B.Shelf.vertices shelf.now) course.rest work.now → Advances (B.Shelf.vertices shelf.now) course out.old result out.new }
{
    match turn_at(shelf, course.rest, work) {
        Turn::Ends => None,
        Turn::Passes(rest) => Some(Course { rest, ..course }),
        Turn::Takes(label, rest) => {
            if course.length >= LONGEST_CODE {
                return None;
            }
            out[course.length] = label;
            Some(Course {
                rest,
                length: course.length + 1,
            })
        }
    }
}

// Writes a code to the start of `out`, and answers its length.
fn write_code<S: Symbol, B: Shelf<S>>(shelf: &B, spot: Spot, out: &mut [S], work: &[Place]) -> usize
    requires output { 64 ≤ length out.old }
    ensures kept { (result ≤ 64) × (drop result out.new ≡ drop result out.old) }
    ensures value { Walkable S.Symbol.before (B.Shelf.vertices shelf.now) spot work.now → Short (codes (B.Shelf.vertices shelf.now) spot.list) → Writes (ordered (codes (B.Shelf.vertices shelf.now) spot.list)) spot.before out.old result out.new }
{
    let mut course = Course {
        rest: spot,
        length: 0,
    };
    while let Some(next) = advance(shelf, course, out, work) {
        course = next;
    }
    course.length
}

// Writes the code of the list with k codes before it to the start of `out`, and answers its length.
pub fn pick<S: Symbol, B: Shelf<S>>(
    shelf: &B,
    list: u32,
    k: u64,
    out: &mut [S],
    work: &mut [Place],
) -> Result<usize, PickFault>
    requires room { list < length work.old }
    requires output { 64 ≤ length out.old }
    ensures answer { Sound S.Symbol.before (B.Shelf.vertices shelf.now) → Good (B.Shelf.vertices shelf.now) list → Picked (codes (B.Shelf.vertices shelf.now) list) k out.old result out.new }
    ensures kept { PickKeeps out.old result out.new }
{
    tally_up_to(shelf, list, work);
    let count = tally_at(work, list).codes.ok_or(PickFault::TooMany)?;
    if k >= count {
        return Err(PickFault::NoSuchCode);
    }
    Ok(write_code(shelf, Spot { list, before: k }, out, work))
}
