// The calls that only symbols that travel have.
ghost use Rattle.std.specs.Prelude.{◌≡◌, ℕ, ◌+◌, ◌*◌, ◌<◌, ◌≤◌, length};
ghost use Rattle.store.specs.State.{seen};
ghost use Rattle.store.specs.Calls.{Writes};
ghost use Rattle.store.specs.Run.{WrittenAlike};

use crate::fault::Fault;
use crate::store::Store;
use memory::recall::RecallTable;
use memory::shelf::Shelf;
use memory::work::Place;
use symbols::{Symbol, WireSymbol};

impl<S: WireSymbol, B: Shelf<S>, R: RecallTable> Store<S, B, R> {
    // The dispatch of the list at the start of `out`, and its length; bytes past it don't change. Refused 2, 3, 8. Time:
    // the vertices reached. It shows the list and nothing of how it came about: two stores of this kind of symbol,
    // whatever their shelves, tables, capacities and runs, write equal bytes exactly for equal lists.
    pub fn write(&self, list: u32, out: &mut [u8], work: &mut [Place]) -> Result<usize, Fault>
        ensures answer { Writes S.Symbol.before self.now.capacity S.WireSymbol.travel (seen R.RecallTable.table self.now) list out.old work.old result out.new }
        ensures alike { WrittenAlike S.Symbol.before S.WireSymbol.travel }
    {
        self.check_list(0, list)?;
        self.check_work(work)?;
        Ok(writing::write(&self.shelf, list, out, work)?)
    }
}
