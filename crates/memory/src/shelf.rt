// A shelf: a list of vertices, the first of which has number 2, and a fixed capacity.
ghost use Rattle.std.specs.Prelude.{◌≡◌, ℕ, ◌+◌, ◌<◌, ◌≤◌, Bool, true, false, ◌↔◌, List, length, take, if◌then◌else◌};
ghost use Rattle.std.specs.Option.{option_map};
ghost use Rattle.ledger.specs.declared.Vertex.{Vertex};
ghost use Rattle.ledger.specs.Diagrams.{look, parts};
ghost use Rattle.ledger.specs.Laid.{First};
ghost use Rattle.ledger.specs.Gather.{gather, Gatherable};
ghost use Rattle.memory.specs.Shelves.{vertex, Appends, FoundOrAppended, marks_in, Renumbered};

use crate::work::Place;
use ledger::Vertex;
use symbols::Symbol;

// The shelf has no place left.
#[derive(Clone, Copy, Debug, PartialEq, Eq)]
pub struct Full;

pub trait Shelf<S: Symbol> {
    ghost vertices: { Self → List (Vertex S) };

    ghost capacity: { Self → ℕ };

    // whether what helps the search, if there is such a thing, fits the vertices: from the first cut to 0 on it does,
    // whatever lay in memory before. That it stays, and the capacity, is said of each change: it relates the shelf before and
    // after, which no field can.
    ghost ready: { Self → Type 0 };

    ghost bounds: { (s : Self) → (length (vertices s) ≤ capacity s) × (capacity s ≤ 1000000) };

    fn capacity(&self) -> u32
        ensures { result ≡ capacity self.now };

    // How many vertices there are.
    fn used(&self) -> u32
        ensures { result ≡ length (vertices self.now) };

    // The label, the zero link and the one link of a number from 2 to used + 1.
    fn look(&self, n: u32) -> Option<(S, u32, u32)>
        ensures { result ≡ option_map parts (look (vertices self.now) n) };

    // The lowest number with this label and these links.
    fn find(&self, label: S, zero: u32, one: u32) -> Option<u32>
        ensures { ready self.now → First (vertices self.now) (vertex label zero one) result };

    // One vertex more, with its number; refused, changing nothing, exactly where there is no place.
    fn append(&mut self, label: S, zero: u32, one: u32) -> Result<u32, Full>
        ensures answer { Appends (capacity self.old) (vertices self.old) (vertex label zero one) result (vertices self.new) }
        ensures ready { ready self.old → ready self.new }
        ensures size { capacity self.new ≡ capacity self.old };

    // The number of this vertex: an equal one's, or that of a new one.
    fn find_or_append(&mut self, label: S, zero: u32, one: u32) -> Result<u32, Full>
        ensures answer { ready self.old → FoundOrAppended (capacity self.old) (vertices self.old) (vertex label zero one) result (vertices self.new) }
        ensures ready { ready self.old → ready self.new }
        ensures size { capacity self.new ≡ capacity self.old }
    {
        // By cases: as `map_or_else`, both closures would need the shelf.
        match self.find(label, zero, one) {
            Some(n) => Ok(n),
            None => self.append(label, zero, one),
        }
    }

    // The first n vertices stay; an n above used changes nothing.
    fn cut(&mut self, n: u32)
        ensures vertices { vertices self.new ≡ take n (vertices self.old) }
        ensures ready { ready self.old → ready self.new }
        ensures anew { n ≡ 0 → ready self.new }
        ensures size { capacity self.new ≡ capacity self.old };

    // Keeps the marked vertices, in their order, and renumbers their links; each place then has its vertex's new
    // number. Answers no, changing no vertex, where the marks are not one a vertex, or a marked vertex has a link to an
    // unmarked one or to a number not below its own: a yes or a no, as the rules have it.
    fn gather(&mut self, marks: &mut [Place]) -> bool
        ensures answer { (result ≡ true) ↔ Gatherable (marks_in marks.old) (vertices self.old) }
        ensures vertices { vertices self.new ≡ (if result then gather (marks_in marks.old) (vertices self.old) else vertices self.old) }
        ensures numbers { result ≡ true → Renumbered marks.old marks.new }
        ensures ready { ready self.old → ready self.new }
        ensures size { capacity self.new ≡ capacity self.old };
}
