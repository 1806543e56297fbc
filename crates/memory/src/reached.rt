// Marking what is reached from some lists: place k speaks of the vertex with number k + 2, and what has no place is passed
// by. Links lead to lower numbers, so one pass from the last place down marks all; whatever lies on the shelf, that pass
// is all there is.
ghost use Rattle.std.specs.Prelude.{◌≡◌, ◌-◌, ◌≤◌, true, ◌↔◌, length, take, drop, count_by};
ghost use Rattle.ledger.specs.Diagrams.{Formed};
ghost use Rattle.ledger.specs.Gather.{Gatherable, Keeps, Marked};
ghost use Rattle.memory.specs.Shelves.{is_mark, marks_in};
ghost use Rattle.memory.specs.Spreading.{Visited, with_mark, with_marks};

use crate::marks::is_marked;
use crate::reading::read_vertex;
use crate::shelf::Shelf;
use crate::work::Place;
use symbols::Symbol;

// Marks a vertex. A terminal has no place, nor has a number past the places.
fn mark(n: u32, marks: &mut [Place])
    ensures { marks_in marks.new ≡ with_mark (marks_in marks.old) n }
{
    if n < 2 {
        return;
    }
    let place = (n - 2) as usize;
    // By index: no proof knows what a slice's `get_mut` leaves.
    if place < marks.len() {
        marks[place].state = 1;
    }
}

fn mark_each(lists: &[u32], marks: &mut [Place])
    ensures { marks_in marks.new ≡ with_marks (marks_in marks.old) lists.now }
{
    for list in lists {
        mark(*list, marks);
    }
}

// Marks the links of this number, if it is a marked vertex; answers whether it is.
fn visit<S: Symbol, B: Shelf<S>>(shelf: &B, n: u32, marks: &mut [Place]) -> bool
    ensures marked { (result ≡ true) ↔ Marked (marks_in marks.old) n }
    ensures above { drop (n - 2) (marks_in marks.new) ≡ drop (n - 2) (marks_in marks.old) }
    ensures spreads { Formed S.Symbol.before (B.Shelf.vertices shelf.now) → Visited (B.Shelf.vertices shelf.now) n (marks_in marks.old) (marks_in marks.new) }
{
    if !is_marked(marks, n) {
        return false;
    }
    if let Some((_, zero, one)) = read_vertex(shelf, n) {
        mark(zero, marks);
        mark(one, marks);
    }
    true
}

// Marks just what is reached from these lists, among the first vertices, one a place, and answers how many are marked: the pass
// down comes to each place once, when no more marks come to it.
pub fn mark_reached<S: Symbol, B: Shelf<S>>(shelf: &B, lists: &[u32], marks: &mut [Place]) -> u32
    requires { length marks.old ≤ length (B.Shelf.vertices shelf.now) }
    ensures count { result ≡ count_by is_mark marks.new }
    ensures reached { Formed S.Symbol.before (B.Shelf.vertices shelf.now) → Gatherable (marks_in marks.new) (take (length marks.old) (B.Shelf.vertices shelf.now)) × Keeps (take (length marks.old) (B.Shelf.vertices shelf.now)) lists.now (marks_in marks.new) }
{
    marks.fill(Place::default());
    mark_each(lists, marks);
    let last = marks.len() as u32 + 1;
    let mut count = 0;
    // By number: a link leads to a lower one.
    for n in (2..=last).rev() {
        count += u32::from(visit(shelf, n, marks));
    }
    count
}
