// Clearing out: what is reached from a keep-list is marked in the work space, the shelf keeps the marked vertices in
// their order, and the keep-list gets their new numbers. Its cost grows with the vertices on the shelf and with the
// keep-list; neither the capacity nor the rest of the work space counts.
ghost use Rattle.std.specs.Prelude.{◌≡◌, ◌<◌, ◌≤◌, map, length, drop};
ghost use Rattle.ledger.specs.Diagrams.{Formed, Sound};
ghost use Rattle.memory.specs.Marks.{noted};
ghost use Rattle.clearing.specs.Cleared.{AllGood, Clears};

use memory::marks::new_link;
use memory::reached::mark_reached;
use memory::shelf::Shelf;
use memory::work::Place;
use symbols::Symbol;

// Gives each list its new number, read from its place.
fn renumber_each(lists: &mut [u32], marks: &[Place])
    ensures { lists.new ≡ map (noted marks.now) lists.old }
{
    for list in lists.iter_mut() {
        *list = new_link(marks, *list);
    }
}

// Keeps what is reached from the keep-list, by a place for each vertex.
fn keep_reached<S: Symbol, B: Shelf<S>>(shelf: &mut B, keep: &mut [u32], marks: &mut [Place])
    requires { length marks.old ≡ length (B.Shelf.vertices shelf.old) }
    ensures answer { Formed S.Symbol.before (B.Shelf.vertices shelf.old) → AllGood (B.Shelf.vertices shelf.old) keep.old → Clears (B.Shelf.vertices shelf.old) keep.old (B.Shelf.vertices shelf.new) keep.new }
    ensures ready { B.Shelf.ready shelf.old → B.Shelf.ready shelf.new }
    ensures size { B.Shelf.capacity shelf.new ≡ B.Shelf.capacity shelf.old }
{
    mark_reached(shelf, keep, marks);
    if shelf.gather(marks) {
        renumber_each(keep, marks);
    }
}

// Exactly the lists of the keep-list and all reached from them stay, in their order; the keep-list gets their new
// numbers. It works in the first places of the work space, one a vertex. Answers how many vertices are left.
pub fn clear_out<S: Symbol, B: Shelf<S>>(shelf: &mut B, keep: &mut [u32], work: &mut [Place]) -> u32
    requires { length (B.Shelf.vertices shelf.old) ≤ length work.old }
    ensures answer { Sound S.Symbol.before (B.Shelf.vertices shelf.old) → AllGood (B.Shelf.vertices shelf.old) keep.old → Clears (B.Shelf.vertices shelf.old) keep.old (B.Shelf.vertices shelf.new) keep.new }
    ensures value { result ≡ length (B.Shelf.vertices shelf.new) }
    ensures ready { B.Shelf.ready shelf.old → B.Shelf.ready shelf.new }
    ensures size { B.Shelf.capacity shelf.new ≡ B.Shelf.capacity shelf.old }
    ensures kept { drop (length (B.Shelf.vertices shelf.old)) work.new ≡ drop (length (B.Shelf.vertices shelf.old)) work.old }
{
    let used = shelf.used() as usize;
    keep_reached(shelf, keep, &mut work[..used]);
    shelf.used()
}
