// The records that a shelf is lent. Whatever else a record holds, it has a vertex: that of record i has the number i + 2.
ghost use Rattle.std.specs.Prelude.{◌≡◌, ◌≤◌, min, true, false, ◌↔◌, map, length};
ghost use Rattle.std.specs.Option.{option_map};
ghost use Rattle.ledger.specs.declared.Vertex.{Vertex};
ghost use Rattle.ledger.specs.Diagrams.{look, parts};
ghost use Rattle.ledger.specs.Gather.{keep, gather, Gatherable};
ghost use Rattle.memory.specs.Marks.{noted_vertex, AllStay};
ghost use Rattle.memory.specs.Shelves.{marks_in, Renumbered};

use crate::marks::{number_marks, vertex_stays};
use crate::work::Place;
use ledger::Vertex;
use symbols::Symbol;

pub trait Record<S: Symbol>: Copy {
    ghost vertex: { Self → Vertex S };

    fn vertex(self) -> Vertex<S>
        ensures { result ≡ vertex self };
}

impl<S: Symbol> Record<S> for Vertex<S> {
    ghost vertex = { λ v. v };

    fn vertex(self) -> Vertex<S> {
        self
    }
}

// How many vertices so many records hold: a shelf has at most a million.
pub fn capacity(records: usize) -> u32
    ensures { result ≡ min records 1000000 }
{
    records.min(1_000_000) as u32
}

// The label, the zero link and the one link of a number.
pub fn look<S: Symbol, T: Record<S>>(records: &[T], n: u32) -> Option<(S, u32, u32)>
    ensures { result ≡ option_map parts (look (map T.Record.vertex records.now) n) }
{
    let record = records.get(n.checked_sub(2)? as usize)?;
    let Vertex { label, zero, one } = record.vertex();
    Some((label, zero, one))
}

// Whether each marked vertex has links to terminals and to marked vertices below it alone.
fn all_stay<S: Symbol, T: Record<S>>(records: &[T], marks: &[Place]) -> bool
    requires { length records.now ≤ 1000000 }
    ensures { (result ≡ true) ↔ AllStay (marks_in marks.now) (map T.Record.vertex records.now) }
{
    // A loop: of `all` the fact about every vertex was tried, and not found.
    for (i, record) in records.iter().enumerate() {
        if !vertex_stays(marks, i as u32 + 2, record.vertex()) {
            return false;
        }
    }
    true
}

// Numbers the places of marks that the vertices can be gathered by; answers no, changing nothing, where they cannot.
pub fn number_vertices<S: Symbol, T: Record<S>>(records: &[T], marks: &mut [Place]) -> bool
    requires { length records.now ≤ 1000000 }
    ensures answer { (result ≡ true) ↔ Gatherable (marks_in marks.old) (map T.Record.vertex records.now) }
    ensures numbers { result ≡ true → Renumbered marks.old marks.new }
    ensures kept { result ≡ true → map (noted_vertex marks.new) (keep (marks_in marks.new) (map T.Record.vertex records.now)) ≡ gather (marks_in marks.old) (map T.Record.vertex records.now) }
    ensures same { marks_in marks.new ≡ marks_in marks.old }
    ensures unchanged { result ≡ false → marks.new ≡ marks.old }
{
    if marks.len() != records.len() || !all_stay(records, marks) {
        return false;
    }
    number_marks(marks);
    true
}
