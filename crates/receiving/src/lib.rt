// Receiving a dispatch: its list is laid down, and the answer is its number.
//
// The head is checked, then each record, then that the bytes are those that writing gives, then how long the codes are;
// only then is anything laid down, and where it does not fit the shelf is cut back. Any bytes of any length are taken. The
// time is linear in them, where the buckets of equal records are even; nothing is kept but in the work space, which is lent, so
// each function says how much of it there is.
#![tactic(auto)]

ghost use Rattle.std.specs.Prelude.{◌≡◌, ◌+◌, ◌*◌, ◌≤◌, true, ◌↔◌, length};
ghost use Rattle.ledger.specs.Diagrams.{Sound};
ghost use Rattle.ledger.specs.Ledger.{codes};
ghost use Rattle.receiving.specs.Receives.{Ends, InOrder, Receives};

use crate::checks::read_head;
use crate::records::Records;
use memory::shelf::Shelf;
use memory::work::Place;
use symbols::{Symbol, WireSymbol};
use wire::faults::ReceiveFault;

mod apart;
mod checks;
pub mod inverse;
mod laying;
mod lengths;
mod records;
mod visiting;

impl<S: WireSymbol> Records<'_, S> {
    // Whether the records are those that writing the root's list gives: the root is one of them or a terminal, they stand
    // in the order of laying down, and no two are equal.
    fn as_written(&self, root: u32, work: &mut [Place]) -> bool
        requires { 2 * length self.now + 256 ≤ length work.old }
        ensures { (result ≡ true) ↔ InOrder S.Symbol.before self.now root }
    {
        let count = self.count();
        root <= count + 1 && self.passed_from(root, work) == Some(count) && self.all_apart(work)
    }

    // Lays the root's list down, unless the records are not as written or a code is too long.
    fn lay_checked<B: Shelf<S>>(
        &self,
        shelf: &mut B,
        root: u32,
        work: &mut [Place],
    ) -> Result<u32, ReceiveFault>
        requires { 2 * length self.now + 256 ≤ length work.old }
        ensures answer { B.Shelf.ready shelf.old → Sound S.Symbol.before (B.Shelf.vertices shelf.old) →
            Ends S.Symbol.before (B.Shelf.capacity shelf.old) (B.Shelf.vertices shelf.old) (InOrder S.Symbol.before self.now root) (codes self.now root) result (B.Shelf.vertices shelf.new) }
        ensures ready { B.Shelf.ready shelf.old → B.Shelf.ready shelf.new }
        ensures size { B.Shelf.capacity shelf.new ≡ B.Shelf.capacity shelf.old }
    {
        if !self.as_written(root, work) {
            return Err(ReceiveFault::NotAsWritten);
        }
        if self.too_long(root, work) {
            return Err(ReceiveFault::CodeTooLong);
        }
        Ok(self.lay_down(shelf, root, work)?)
    }
}

// Receives a dispatch.
pub fn receive<S: WireSymbol, B: Shelf<S>>(
    shelf: &mut B,
    bytes: &[u8],
    work: &mut [Place],
) -> Result<u32, ReceiveFault>
    requires { 2 * B.Shelf.capacity shelf.old + 256 ≤ length work.old }
    ensures answer { B.Shelf.ready shelf.old → Sound S.Symbol.before (B.Shelf.vertices shelf.old) → Receives S.Symbol.before S.WireSymbol.travel (B.Shelf.capacity shelf.old) (B.Shelf.vertices shelf.old) bytes.now result (B.Shelf.vertices shelf.new) }
    ensures ready { B.Shelf.ready shelf.old → B.Shelf.ready shelf.new }
    ensures size { B.Shelf.capacity shelf.new ≡ B.Shelf.capacity shelf.old }
{
    let (head, rest) = read_head::<S>(bytes, shelf.capacity())?;
    let records = Records::<S>::checked(rest, head.count)?;
    records.lay_checked(shelf, head.root, work)
}
