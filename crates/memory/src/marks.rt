// Gathering by marks, as far as it is the same on every shelf: place k speaks of the vertex with number k + 2.
//
// The marks are counted once, and each place then has its vertex's new number; after that a link costs one read.
// Places are handed over as plain slices, as shelves and walks are lent them; one parameter is no more than a `self`.
ghost use Rattle.std.specs.Prelude.{◌≡◌, ◌+◌, ◌≤◌, true, ◌↔◌, length};
ghost use Rattle.ledger.specs.Gather.{marked_before, renumber, renumbered, Marked};
ghost use Rattle.memory.specs.Marks.{noted, noted_vertex, Stays, BothStay};
ghost use Rattle.memory.specs.Shelves.{marks_in, Renumbered};

use crate::work::Place;
use ledger::Vertex;
use symbols::Symbol;

// Gives each place its vertex's new number, and answers how many are marked. The marks stay.
pub fn number_marks(marks: &mut [Place]) -> u32
    requires { length marks.old ≤ 1000000 }
    ensures answer { result ≡ marked_before (marks_in marks.old) (length marks.old) }
    ensures numbers { Renumbered marks.old marks.new }
    ensures same { marks_in marks.new ≡ marks_in marks.old }
{
    let mut count: u32 = 0;
    // One pass: a place's number is the count so far.
    for place in marks.iter_mut() {
        place.number = count + 2;
        count += u32::from(place.state != 0);
    }
    count
}

// Whether a number is a terminal's or a marked vertex's.
pub fn is_marked(marks: &[Place], n: u32) -> bool
    ensures { (result ≡ true) ↔ Marked (marks_in marks.now) n }
{
    n < 2
        || marks
            .get((n - 2) as usize)
            .is_some_and(|place| place.state != 0)
}

// Whether a link of the vertex `own` may stay: it leads below `own`, to a terminal or to a marked vertex.
pub fn link_stays(marks: &[Place], own: u32, link: u32) -> bool
    ensures { (result ≡ true) ↔ Stays (marks_in marks.now) own link }
{
    link < own && is_marked(marks, link)
}

// Whether the vertex `own` is unmarked, or both its links may stay.
pub fn vertex_stays<S: Symbol>(marks: &[Place], own: u32, vertex: Vertex<S>) -> bool
    ensures { (result ≡ true) ↔ BothStay (marks_in marks.now) own vertex }
{
    if !is_marked(marks, own) {
        return true;
    }
    link_stays(marks, own, vertex.zero) && link_stays(marks, own, vertex.one)
}

// A link's new number, read from its place; terminals stay, and so does a link past the places.
pub fn new_link(marks: &[Place], link: u32) -> u32
    ensures noted { result ≡ noted marks.now link }
    ensures value { Renumbered marks.now marks.now → link ≤ length marks.now + 1 → result ≡ renumber (marks_in marks.now) link }
{
    if link < 2 {
        return link;
    }
    marks
        .get((link - 2) as usize)
        .map_or(link, |place| place.number)
}

// A vertex with the new numbers of its links.
pub fn new_vertex<S: Symbol>(marks: &[Place], vertex: Vertex<S>) -> Vertex<S>
    ensures noted { result ≡ noted_vertex marks.now vertex }
    ensures value { Renumbered marks.now marks.now → vertex.zero ≤ length marks.now + 1 → vertex.one ≤ length marks.now + 1 → result ≡ renumbered (marks_in marks.now) vertex }
{
    Vertex {
        label: vertex.label,
        zero: new_link(marks, vertex.zero),
        one: new_link(marks, vertex.one),
    }
}
