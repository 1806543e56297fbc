// A list with a code, and without one. One walk serves both: down the code's path, a frame in the work space for each
// vertex on it and each symbol that has none, and back up, each frame making its vertex anew. Outer lists come before
// inner lists, so what is appended is what laying the list down appends, in its order. Down, a step costs one read of a
// vertex; back up, at most one read and one search of the shelf. Whether there is anything to change is
// known at the bottom, before the shelf is touched.
ghost use Rattle.std.specs.Prelude.{◌≡◌, ◌+◌, ◌≤◌, [], length};
ghost use Rattle.ledger.specs.Ledger.{codes, Lays};
ghost use Rattle.ledger.specs.Operations.{has};
ghost use Rattle.paths.specs.Asked.{WhenGood};
ghost use Rattle.paths.specs.Changed.{changed, end_number, as_it_is};
ghost use Rattle.paths.specs.Waiting.{Stepped, Waits, Resumed, Unwound};

use crate::frames::Frame;
use memory::reading::read_vertex;
use memory::shelf::{Full, Shelf};
use memory::stack::Stack;
use memory::work::Place;
use symbols::Symbol;

// What is done to a list with a code.
#[derive(Clone, Copy, Debug, PartialEq, Eq)]
pub enum Change {
    Add,
    Remove,
}

impl Change {
    // Whether a code that is in the list, or not, leaves nothing to change.
    fn is_settled(self, held: bool) -> bool
        ensures { result ≡ as_it_is self held }
    {
        match self {
            Change::Add => held,
            Change::Remove => !held,
        }
    }

    // The terminal at the end of the code's path after the change.
    fn end(self) -> u32
        ensures { result ≡ end_number self }
    {
        match self {
            Change::Add => 1,
            Change::Remove => 0,
        }
    }
}

// One step down from `at`, the code's symbols from `spot` on still to come: the frame that waits, and where to go on;
// nothing at the end of the path.
fn step<S: Symbol, B: Shelf<S>>(
    shelf: &B,
    at: u32,
    code: &[S],
    spot: usize,
) -> Option<(Frame, u32, usize)>
    requires { spot ≤ length code.now }
    ensures { Stepped S.Symbol.before (B.Shelf.vertices shelf.now) code.now at spot result }
{
    let Some((label, zero, one)) = read_vertex(shelf, at) else {
        code.get(spot)?;
        return Some((Frame::One { zero: at, spot }, 0, spot + 1));
    };
    // The label first: a vertex that the path passes by costs one comparison.
    match code.get(spot) {
        None => Some((Frame::Zero { vertex: at }, zero, spot)),
        Some(symbol) if label.before(*symbol) => Some((Frame::Zero { vertex: at }, zero, spot)),
        Some(symbol) if symbol.before(label) => Some((Frame::One { zero: at, spot }, 0, spot + 1)),
        Some(_) => Some((Frame::One { zero, spot }, one, spot + 1)),
    }
}

// Walks down the code's path, a frame for each step, and answers whether the code is in the list. A path that leaves the
// vertices ends at terminal 0.
fn descend<S: Symbol, B: Shelf<S>>(shelf: &B, list: u32, code: &[S], stack: &mut Stack) -> bool
    requires empty { stack.old.frames ≡ [] }
    requires room { list + length code.now ≤ stack.old.room }
    ensures member { WhenGood S.Symbol.before (B.Shelf.vertices shelf.now) list (λ t. result ≡ has S.Symbol.before t code.now) }
    ensures waits { WhenGood S.Symbol.before (B.Shelf.vertices shelf.now) list (λ t. (change : Change) → Waits S.Symbol.before (B.Shelf.vertices shelf.now) code.now stack.new.frames (codes (B.Shelf.vertices shelf.now) (end_number change)) (changed S.Symbol.before change t code.now)) }
{
    let mut at = list;
    // By place: a frame keeps which symbol of the code it waits with.
    let mut spot = 0;
    while let Some((frame, next, then)) = step(shelf, at, code, spot) {
        stack.push(Place::from(frame));
        at = next;
        spot = then;
    }
    at == 1
}

// The number of the list that a frame waited to make, once what it waited for has its number; no vertex has one link 0.
// The vertex and the symbol that a frame names are there on any shelf that keeps its rules, and on any other the walk
// goes on without them.
fn resume<S: Symbol, B: Shelf<S>>(
    shelf: &mut B,
    code: &[S],
    frame: Frame,
    number: u32,
) -> Result<u32, Full>
    ensures answer { B.Shelf.ready shelf.old → Resumed S.Symbol.before (B.Shelf.capacity shelf.old) code.now frame (B.Shelf.vertices shelf.old) number result (B.Shelf.vertices shelf.new) }
    ensures ready { B.Shelf.ready shelf.old → B.Shelf.ready shelf.new }
    ensures size { B.Shelf.capacity shelf.new ≡ B.Shelf.capacity shelf.old }
{
    match frame {
        Frame::Zero { vertex } => {
            let Some((label, _, one)) = read_vertex(shelf, vertex) else {
                return Ok(number);
            };
            shelf.find_or_append(label, number, one)
        }
        Frame::One { zero, spot } => match code.get(spot) {
            Some(symbol) if number > 0 => shelf.find_or_append(*symbol, zero, number),
            _ => Ok(zero),
        },
    }
}

// Goes back up the frames, to the number of the whole list.
fn unwind<S: Symbol, B: Shelf<S>>(
    shelf: &mut B,
    code: &[S],
    stack: &mut Stack,
    end: u32,
) -> Result<u32, Full>
    ensures answer { B.Shelf.ready shelf.old → Unwound S.Symbol.before (B.Shelf.capacity shelf.old) code.now stack.old.frames (B.Shelf.vertices shelf.old) end result (B.Shelf.vertices shelf.new) }
    ensures ready { B.Shelf.ready shelf.old → B.Shelf.ready shelf.new }
    ensures size { B.Shelf.capacity shelf.new ≡ B.Shelf.capacity shelf.old }
{
    let mut number = end;
    while let Some(place) = stack.pop() {
        number = resume(shelf, code, Frame::from(place), number)?;
    }
    Ok(number)
}

// The list with the code, or without it, laid down; a full shelf is left as it was.
pub fn alter<S: Symbol, B: Shelf<S>>(
    shelf: &mut B,
    change: Change,
    list: u32,
    code: &[S],
    work: &mut [Place],
) -> Result<u32, Full>
    requires { list + length code.now ≤ length work.old }
    ensures answer { B.Shelf.ready shelf.old → WhenGood S.Symbol.before (B.Shelf.vertices shelf.old) list (λ t. Lays S.Symbol.before (B.Shelf.capacity shelf.old) (B.Shelf.vertices shelf.old) (changed S.Symbol.before change t code.now) result (B.Shelf.vertices shelf.new)) }
    ensures ready { B.Shelf.ready shelf.old → B.Shelf.ready shelf.new }
    ensures size { B.Shelf.capacity shelf.new ≡ B.Shelf.capacity shelf.old }
{
    let mut stack = Stack::new(work);
    let held = descend(shelf, list, code, &mut stack);
    if change.is_settled(held) {
        return Ok(list);
    }
    let start = shelf.used();
    let altered = unwind(shelf, code, &mut stack, change.end());
    if altered.is_err() {
        shelf.cut(start);
    }
    altered
}
