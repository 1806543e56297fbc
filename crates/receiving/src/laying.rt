// Lays the records of a dispatch down, in their order. That is the order in which their root's list is laid down in an
// empty ledger, so over the shelf's own vertices they append just what that list appends there. A record costs one
// search; each place keeps the number of its record's list.
ghost use Rattle.std.specs.Prelude.{◌≡◌, ◌≤◌, length};
ghost use Rattle.ledger.specs.Diagrams.{Good, Sound};
ghost use Rattle.ledger.specs.Ledger.{codes, Lays};
ghost use Rattle.ledger.specs.Visits.{Visits};
ghost use Rattle.memory.specs.Marks.{noted_vertex};
ghost use Rattle.memory.specs.Shelves.{FoundOrAppended};
ghost use Rattle.receiving.specs.Layings.{Settled};

use crate::records::Records;
use ledger::Vertex;
use memory::marks::{new_link, new_vertex};
use memory::shelf::{Full, Shelf};
use memory::work::Place;
use symbols::{Symbol, WireSymbol};

// Lays a vertex down, its links by the numbers in their places.
fn lay_vertex<S: Symbol, B: Shelf<S>>(
    shelf: &mut B,
    work: &[Place],
    vertex: Vertex<S>,
) -> Result<u32, Full>
    ensures answer { B.Shelf.ready shelf.old → FoundOrAppended (B.Shelf.capacity shelf.old) (B.Shelf.vertices shelf.old) (noted_vertex work.now vertex) result (B.Shelf.vertices shelf.new) }
    ensures ready { B.Shelf.ready shelf.old → B.Shelf.ready shelf.new }
    ensures size { B.Shelf.capacity shelf.new ≡ B.Shelf.capacity shelf.old }
{
    let Vertex { label, zero, one } = new_vertex(work, vertex);
    shelf.find_or_append(label, zero, one)
}

impl<S: WireSymbol> Records<'_, S> {
    // Lays the records down, and answers the root's number.
    fn lay_records<B: Shelf<S>>(
        &self,
        shelf: &mut B,
        root: u32,
        work: &mut [Place],
    ) -> Result<u32, Full>
        requires { length self.now ≤ length work.old }
        ensures answer { B.Shelf.ready shelf.old → Good self.now root → Visits self.now 0 root (length self.now) →
            Sound S.Symbol.before (B.Shelf.vertices shelf.old) → Settled S.Symbol.before (B.Shelf.capacity shelf.old) (B.Shelf.vertices shelf.old) (codes self.now root) result (B.Shelf.vertices shelf.new) }
        ensures ready { B.Shelf.ready shelf.old → B.Shelf.ready shelf.new }
        ensures size { B.Shelf.capacity shelf.new ≡ B.Shelf.capacity shelf.old }
    {
        // By number: the links of each lead to the places of lower ones.
        for k in 0..self.count() {
            let number = lay_vertex(shelf, work, self.record(k))?;
            work[k as usize].number = number;
        }
        Ok(new_link(work, root))
    }

    // Lays the root's list down, or leaves the vertices as they were.
    pub(crate) fn lay_down<B: Shelf<S>>(
        &self,
        shelf: &mut B,
        root: u32,
        work: &mut [Place],
    ) -> Result<u32, Full>
        requires { length self.now ≤ length work.old }
        ensures answer { B.Shelf.ready shelf.old → Good self.now root → Visits self.now 0 root (length self.now) →
            Sound S.Symbol.before (B.Shelf.vertices shelf.old) → Lays S.Symbol.before (B.Shelf.capacity shelf.old) (B.Shelf.vertices shelf.old) (codes self.now root) result (B.Shelf.vertices shelf.new) }
        ensures ready { B.Shelf.ready shelf.old → B.Shelf.ready shelf.new }
        ensures size { B.Shelf.capacity shelf.new ≡ B.Shelf.capacity shelf.old }
    {
        let start = shelf.used();
        let laid = self.lay_records(shelf, root, work);
        if laid.is_err() {
            shelf.cut(start);
        }
        laid
    }
}
