// Whether a code of the root's list is longer than 64 symbols: one pass over the records, each measured from its links,
// which are lower. A length is counted up to 65.
ghost use Rattle.std.specs.Prelude.{◌≡◌, suc, ◌+◌, ◌<◌, ◌≤◌, min, true, ◌↔◌, length};
ghost use Rattle.ledger.specs.Ledger.{codes};
ghost use Rattle.receiving.specs.Lengths.{Long, longest, length_in, Measured};

use crate::records::Records;
use memory::work::Place;
use symbols::{LONGEST_CODE, Symbol, WireSymbol};

// No code is longer.
const LONGEST: u32 = LONGEST_CODE as u32;

// How long the codes of a number are, from its place; those of a terminal are empty.
fn length_at(work: &[Place], n: u32) -> u32
    requires { n ≤ length work.now + 1 }
    ensures { result ≡ length_in work.now n }
{
    match n.checked_sub(2) {
        Some(k) => work[k as usize].number,
        None => 0,
    }
}

impl<S: WireSymbol> Records<'_, S> {
    // How long the codes of record k are, from those of the records before it.
    fn measure(&self, work: &[Place], k: u32) -> u32
        requires index { k < length self.now }
        requires room { length self.now ≤ length work.now }
        ensures { Measured self.now k work.now → result ≡ min (longest (codes self.now (suc (suc k)))) 65 }
    {
        let vertex = self.record(k);
        let outer = length_at(work, vertex.zero);
        let inner = length_at(work, vertex.one);
        outer.max(inner.saturating_add(1).min(LONGEST + 1))
    }

    // Whether a code of the root's list is longer than 64 symbols.
    pub(crate) fn too_long(&self, root: u32, work: &mut [Place]) -> bool
        requires good { root ≤ length self.now + 1 }
        requires room { length self.now ≤ length work.old }
        ensures { (result ≡ true) ↔ Long (codes self.now root) }
    {
        // By number: each is measured from the places of lower ones.
        for k in 0..self.count() {
            let number = self.measure(work, k);
            work[k as usize].number = number;
        }
        length_at(work, root) > LONGEST
    }
}
