// Clearing out: the call that takes numbers back.
ghost use Rattle.std.specs.Prelude.{◌≡◌, ℕ, ◌+◌, ◌*◌, ◌<◌, ◌≤◌, Bool, length, None};
ghost use Rattle.store.specs.State.{seen, check_lists, answered};
ghost use Rattle.store.specs.Calls.{ClearsOut};

use crate::fault::Fault;
use crate::store::Store;
use memory::recall::RecallTable;
use memory::shelf::Shelf;
use memory::work::Place;
use symbols::Symbol;

impl<S: Symbol, B: Shelf<S>, R: RecallTable> Store<S, B, R> {
    // Refuses a keep-list with a number that is not good, by the place of the first such one.
    fn check_keep(&self, keep: &[u32]) -> Result<(), Fault>
        ensures { result ≡ answered (check_lists self.now.vertices 0 keep.now None) tt }
    {
        for (place, list) in keep.iter().enumerate() {
            self.check_list(place, *list)?;
        }
        Ok(())
    }

    // Exactly the lists of the keep-list and all reached from them stay, in their order. The keep-list gets the new
    // numbers, and used is answered; the recall table is forgotten. Refused 2, 3. Time: used and the keep-list.
    pub fn clear_out(&mut self, keep: &mut [u32], work: &mut [Place]) -> Result<u32, Fault>
        ensures answer { ClearsOut S.Symbol.before self.old.capacity (seen R.RecallTable.table self.old) keep.old work.old result (seen R.RecallTable.table self.new) keep.new }
        ensures size { self.new.capacity ≡ self.old.capacity }
    {
        self.check_keep(keep)?;
        self.check_work(work)?;
        self.recall.forget();
        Ok(clearing::clearing::clear_out(&mut self.shelf, keep, work))
    }
}
