// The calls that lay a list down. Each says its list as a set, which refusal comes first, and that a refusal leaves the
// vertices as they were.
ghost use Rattle.std.specs.Prelude.{◌≡◌, ℕ, ◌+◌, ◌*◌, ◌<◌, ◌≤◌, Bool, length};
ghost use Rattle.store.specs.State.{seen};
ghost use Rattle.store.specs.Calls.{Adds, Changes, Removes, Joins};

use crate::fault::Fault;
use crate::store::{Store, check_code};
use joining::rule::Rule;
use memory::recall::RecallTable;
use memory::shelf::{Full, Shelf};
use memory::work::Place;
use paths::changing::Change;
use symbols::Symbol;

impl<S: Symbol, B: Shelf<S>, R: RecallTable> Store<S, B, R> {
    // The list that a change makes of this one, laid down; its number. Where it finds no place, the table is forgotten.
    fn change(
        &mut self,
        change: Change,
        list: u32,
        code: &[S],
        work: &mut [Place],
    ) -> Result<u32, Fault>
        ensures answer { Changes S.Symbol.before self.old.capacity change (seen R.RecallTable.table self.old) list code.now work.old result (seen R.RecallTable.table self.new) }
        ensures size { self.new.capacity ≡ self.old.capacity }
    {
        self.check_list(0, list)?;
        check_code(code)?;
        self.check_work(work)?;
        // By cases: a refusal forgets the table as well.
        match paths::changing::alter(&mut self.shelf, change, list, code, work) {
            Ok(n) => Ok(n),
            Err(Full) => {
                self.recall.forget();
                Err(Fault::ShelfFull)
            }
        }
    }

    // The list with the code, laid down; its number. Refused 2, 4, 3, 9. Time: the path that is copied.
    pub fn add(&mut self, list: u32, code: &[S], work: &mut [Place]) -> Result<u32, Fault>
        ensures answer { Adds S.Symbol.before self.old.capacity (seen R.RecallTable.table self.old) list code.now work.old result (seen R.RecallTable.table self.new) }
        ensures size { self.new.capacity ≡ self.old.capacity }
    {
        self.change(Change::Add, list, code, work)
    }

    // The list without the code, laid down; its number. Refused 2, 4, 3, 9. Time: the path that is copied.
    pub fn remove(&mut self, list: u32, code: &[S], work: &mut [Place]) -> Result<u32, Fault>
        ensures answer { Removes S.Symbol.before self.old.capacity (seen R.RecallTable.table self.old) list code.now work.old result (seen R.RecallTable.table self.new) }
        ensures size { self.new.capacity ≡ self.old.capacity }
    {
        self.change(Change::Remove, list, code, work)
    }

    // The join of two lists by a rule, laid down; its number. The rule is a sum: 1 takes codes only in the first list, 2
    // only in the second, 4 those in both. Refused 2, 5, 3, 9. Time: the different pairs of vertices, with a table that
    // is large enough.
    pub fn join(
        &mut self,
        rule: u32,
        first: u32,
        second: u32,
        work: &mut [Place],
    ) -> Result<u32, Fault>
        ensures answer { Joins S.Symbol.before self.old.capacity (seen R.RecallTable.table self.old) rule first second work.old result (seen R.RecallTable.table self.new) }
        ensures size { self.new.capacity ≡ self.old.capacity }
    {
        self.check_list(0, first)?;
        self.check_list(1, second)?;
        let rule = Rule::try_from(rule)?;
        self.check_work(work)?;
        Ok(joining::join(&mut self.shelf, &mut self.recall, rule, first, second, work)?)
    }
}
