// The calls that only read. Each says its list as a set, and which refusal comes first.
ghost use Rattle.std.specs.Prelude.{◌≡◌, ℕ, ◌+◌, ◌<◌, ◌≤◌, Bool, length, Option};
ghost use Rattle.symbols.specs.Wire.{Travel};
ghost use Rattle.store.specs.State.{seen};
ghost use Rattle.store.specs.Run.{Run, NumbersAreLists, NoneSmaller};
ghost use Rattle.store.specs.Calls.{Looks, Holds, Unders, CountsCodes, CountsVertices, Picks};

use crate::fault::Fault;
use crate::store::{Store, check_code, check_output};
use memory::recall::RecallTable;
use memory::shelf::Shelf;
use memory::work::Place;
use symbols::Symbol;

impl<S: Symbol, B: Shelf<S>, R: RecallTable> Store<S, B, R> {
    // The label, the zero link and the one link of a number from 2 to used + 1. Never refused. What is read so are the
    // vertices of a store that a run has led to: in them a list's number is the list.
    pub fn look(&self, n: u32) -> Option<(S, u32, u32)>
        ensures answer { Looks S.Symbol.before self.now.capacity (seen R.RecallTable.table self.now) n result }
        ensures run { (travel : Option (Travel S)) → Run S.Symbol.before travel self.now.capacity (seen R.RecallTable.table self.now) }
        ensures lists { NumbersAreLists self.now.vertices × NoneSmaller S.Symbol.before self.now.vertices }
    {
        self.shelf.look(n)
    }

    // Whether the code is in the list. Refused 2, 4. Time: the code's path.
    pub fn holds(&self, list: u32, code: &[S]) -> Result<bool, Fault>
        ensures { Holds S.Symbol.before self.now.capacity (seen R.RecallTable.table self.now) list code.now result }
    {
        self.check_list(0, list)?;
        check_code(code)?;
        Ok(paths::asking::holds(&self.shelf, list, code))
    }

    // What remains of the codes that begin with this one, this one taken off: its number, which it has already.
    // Refused 2, 4. Time: the code's path.
    pub fn under(&self, list: u32, code: &[S]) -> Result<u32, Fault>
        ensures { Unders S.Symbol.before self.now.capacity (seen R.RecallTable.table self.now) list code.now result }
    {
        self.check_list(0, list)?;
        check_code(code)?;
        Ok(paths::asking::under(&self.shelf, list, code))
    }

    // How many codes the list has. Refused 2, 3, and 6 from 2^64 codes on. Time: the numbers up to the list's.
    pub fn count(&self, list: u32, work: &mut [Place]) -> Result<u64, Fault>
        ensures { CountsCodes S.Symbol.before self.now.capacity (seen R.RecallTable.table self.now) list work.old result }
    {
        self.check_list(0, list)?;
        self.check_work(work)?;
        counting::tallying::count(&self.shelf, list, work).ok_or(Fault::TooManyCodes)
    }

    // How many vertices are reached from the number. Refused 2, 3. Time: the numbers up to the list's.
    pub fn vertices(&self, list: u32, work: &mut [Place]) -> Result<u32, Fault>
        ensures { CountsVertices S.Symbol.before self.now.capacity (seen R.RecallTable.table self.now) list work.old result }
    {
        self.check_list(0, list)?;
        self.check_work(work)?;
        Ok(counting::marking::vertices(&self.shelf, list, work))
    }

    // The code with k before it, at the start of `out`, and its length; symbols past it don't change. Codes come in the
    // code order: a code comes before one that it begins, else the first differing symbol decides. Refused 2, 8, 3, 6, 7.
    // Time: the numbers up to the list's.
    pub fn pick(&self, list: u32, k: u64, out: &mut [S], work: &mut [Place]) -> Result<usize, Fault>
        ensures { Picks S.Symbol.before self.now.capacity (seen R.RecallTable.table self.now) list k out.old work.old result out.new }
    {
        self.check_list(0, list)?;
        check_output(out)?;
        self.check_work(work)?;
        Ok(counting::picking::pick(&self.shelf, list, k, out, work)?)
    }
}
