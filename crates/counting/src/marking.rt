// How many vertices are reached from a number: they are marked in the work space, and counted in the pass that marks them.
ghost use Rattle.std.specs.Prelude.{◌<◌, length};
ghost use Rattle.ledger.specs.Diagrams.{Counts, Formed, Reached};

use memory::reached::mark_reached;
use memory::shelf::Shelf;
use memory::work::Place;
use symbols::Symbol;

// How many vertices are reached from the number: they have no higher number, so it looks at no others.
pub fn vertices<S: Symbol, B: Shelf<S>>(shelf: &B, list: u32, work: &mut [Place]) -> u32
    requires { list < length work.old }
    ensures { Formed S.Symbol.before (B.Shelf.vertices shelf.now) → Counts (Reached (B.Shelf.vertices shelf.now) list) result }
{
    let places = list.saturating_sub(1).min(shelf.used()) as usize;
    mark_reached(shelf, &[list], &mut work[..places])
}
