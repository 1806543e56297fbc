// The walk from a list: a vertex's zero link, its one link, then the vertex itself, each vertex once. The vertices that
// wait for their links lie on a stack in lent places; their numbers fall along it, so it is never deeper than there are
// vertices.
ghost use Rattle.std.specs.Prelude.{◌≡◌, ◌+◌, ◌≤◌, [], ◌∷◌, map, length};
ghost use Rattle.ledger.specs.Diagrams.{Formed, Sound};
ghost use Rattle.ledger.specs.Ledger.{codes, lay};
ghost use Rattle.writing.specs.Met.{met_numbers};
ghost use Rattle.writing.specs.Walks.{waiting, NextBelow, NextLink, Walking, Turns, TurnsTo};

use crate::met::{Seen, meet};
use memory::reading::read_vertex;
use memory::shelf::Shelf;
use memory::stack::Stack;
use memory::work::Place;
use symbols::Symbol;

// The place of a vertex that waits.
fn waiting_place(n: u32) -> Place
    ensures { result.list ≡ n }
{
    Place {
        list: n,
        ..Place::default()
    }
}

// The first link of a vertex that is not met yet, if there is one.
fn next_link<S: Symbol, B: Shelf<S>>(shelf: &B, n: u32, seen: &Seen) -> Option<u32>
    requires vertex { (2 ≤ n) × (n ≤ length seen.now.places.now + 1) }
    requires size { length seen.now.places.now ≡ length (B.Shelf.vertices shelf.now) }
    ensures below { NextBelow seen.now.places.now seen.now.met n result }
    ensures value { Formed S.Symbol.before (B.Shelf.vertices shelf.now) → NextLink (B.Shelf.vertices shelf.now) seen.now.places.now seen.now.met n result }
{
    let (_, zero, one) = read_vertex(shelf, n)?;
    if seen.is_unmet(zero) {
        return Some(zero);
    }
    if seen.is_unmet(one) {
        return Some(one);
    }
    None
}

// The vertex that waited last gives way to a link that is not met, or is met itself; answers how many are met then.
fn turn<S: Symbol, B: Shelf<S>>(
    shelf: &B,
    last: Place,
    met: u32,
    seen: &mut [Place],
    stack: &mut Stack,
) -> u32
    requires size { length seen.old ≡ length (B.Shelf.vertices shelf.now) }
    requires room { length seen.old ≤ stack.old.room }
    requires walking { Walking seen.old (waiting (last ∷ stack.old.frames)) met }
    ensures walking { Turns seen.old (waiting (last ∷ stack.old.frames)) met seen.new (waiting stack.new.frames) result }
    ensures value { Sound S.Symbol.before (B.Shelf.vertices shelf.now) → TurnsTo S.Symbol.before (B.Shelf.vertices shelf.now) seen.old (waiting (last ∷ stack.old.frames)) met seen.new (waiting stack.new.frames) result }
    ensures room { stack.new.room ≡ stack.old.room }
{
    match next_link(shelf, last.list, &Seen { places: seen, met }) {
        Some(link) => {
            stack.push(last);
            stack.push(waiting_place(link));
            met
        }
        None => {
            meet(seen, met, last.list);
            met + 1
        }
    }
}

// Meets the vertices that are reached from the list.
pub(crate) fn walk<'a, S: Symbol, B: Shelf<S>>(
    shelf: &B,
    list: u32,
    seen: &'a mut [Place],
    stack: &mut [Place],
) -> Seen<'a>
    requires good { list ≤ length seen.old + 1 }
    requires size { length seen.old ≡ length (B.Shelf.vertices shelf.now) }
    requires room { length seen.old ≤ length stack.old }
    ensures size { length result.places.now ≡ length (B.Shelf.vertices shelf.now) }
    ensures value { Sound S.Symbol.before (B.Shelf.vertices shelf.now) → map (codes (B.Shelf.vertices shelf.now)) (met_numbers result.places.now result.met) ≡ lay S.Symbol.before [] (codes (B.Shelf.vertices shelf.now) list) }
{
    let mut stack = Stack::new(stack);
    if list >= 2 {
        stack.push(waiting_place(list));
    }
    let mut met = 0;
    while let Some(last) = stack.pop() {
        met = turn(shelf, last, met, seen, &mut stack);
    }
    Seen { places: seen, met }
}
