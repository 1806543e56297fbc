// A store: a shelf and a recall table, held by value. Nothing but its calls reaches them.
ghost use Rattle.std.specs.Prelude.{◌≡◌, ℕ, ◌+◌, ◌*◌, ◌<◌, ◌≤◌, Bool, List, [], ◌∷◌, length, Some, None, Option};
ghost use Rattle.symbols.specs.Wire.{Travel};
ghost use Rattle.store.specs.State.{Forgotten, seen, check_lists, check_code, check_work, check_output, answered};
ghost use Rattle.store.specs.Run.{Run, NumberIsList};

use crate::fault::Fault;
use memory::recall::RecallTable;
use memory::shelf::Shelf;
use memory::work::Place;
use std::marker::{Model, PhantomData};
use symbols::{LONGEST_CODE, Symbol};

#[derive(Drop)]
pub struct Store<S: Symbol, B: Shelf<S>, R: RecallTable> {
    pub(crate) shelf: B,
    pub(crate) recall: R,
    kind: PhantomData<S>,
}

// A caller sees the capacity, the vertices and the recall table; whoever holds a store holds one that a run has led to.
impl<S: Symbol, B: Shelf<S>, R: RecallTable> Model for Store<S, B, R> {
    ghost use Rattle.std.specs.Prelude.{Option};
    ghost use Rattle.symbols.specs.Wire.{Travel};
    ghost use Rattle.store.specs.State.{Fitted, state};
    ghost use Rattle.store.specs.Run.{Stands};

    ghost Value = { Fitted S R };

    ghost view = { λ s. record { capacity = B.Shelf.capacity s.shelf; vertices = B.Shelf.vertices s.shelf; recall = s.recall } };

    ghost invariant = { λ s. (travel : Option (Travel S)) → Stands S.Symbol.before travel (B.Shelf.capacity s.shelf) (B.Shelf.ready s.shelf) (state (B.Shelf.vertices s.shelf) (R.RecallTable.table s.recall)) };
}

impl<S: Symbol, B: Shelf<S>, R: RecallTable> Store<S, B, R> {
    // A store over this shelf and this table, whatever they held before: the shelf is cut to 0 and the table forgotten.
    // From here on, after every run of calls, a list's number is the list.
    pub fn fit_out(shelf: B, recall: R) -> Self
        ensures run { (travel : Option (Travel S)) → Run S.Symbol.before travel result.capacity (seen R.RecallTable.table result) }
        ensures size { result.capacity ≡ B.Shelf.capacity shelf }
        ensures empty { result.vertices ≡ [] }
        ensures forgotten { Forgotten (R.RecallTable.table result.recall) }
        ensures promise { NumberIsList S.Symbol.before (B.Shelf.capacity shelf) }
    {
        let mut shelf = shelf;
        let mut recall = recall;
        shelf.cut(0);
        recall.forget();
        Store {
            shelf,
            recall,
            kind: PhantomData,
        }
    }

    // How many vertices there may be.
    pub fn capacity(&self) -> u32
        ensures value { result ≡ self.now.capacity }
        ensures few { result ≤ 1000000 }
        ensures room { length self.now.vertices ≤ result }
    {
        self.shelf.capacity()
    }

    // How many vertices there are.
    pub fn used(&self) -> u32
        ensures value { result ≡ length self.now.vertices }
        ensures few { result ≤ 1000000 }
        ensures within { result ≤ self.now.capacity }
    {
        self.shelf.used()
    }

    // Refuses a list number that is not good, by its place among the call's numbers.
    pub(crate) fn check_list(&self, place: usize, list: u32) -> Result<(), Fault>
        ensures { result ≡ answered (check_lists self.now.vertices place (list ∷ []) None) tt }
    {
        if list > self.used() + 1 {
            return Err(Fault::NoSuchList { place });
        }
        Ok(())
    }

    // Refuses work space of less than 2 × capacity + 256 places.
    pub(crate) fn check_work(&self, work: &[Place]) -> Result<(), Fault>
        ensures { result ≡ answered (check_work self.now.capacity work.now None) tt }
    {
        if work.len() < 2 * self.capacity() as usize + 256 {
            return Err(Fault::LittleWork);
        }
        Ok(())
    }
}

// Refuses a code of more than 64 symbols.
pub(crate) fn check_code<S: Symbol>(code: &[S]) -> Result<(), Fault>
    ensures { result ≡ answered (check_code code.now None) tt }
{
    if code.len() > LONGEST_CODE {
        return Err(Fault::CodeTooLong);
    }
    Ok(())
}

// Refuses an output with room for fewer than 64 symbols.
pub(crate) fn check_output<S: Symbol>(out: &[S]) -> Result<(), Fault>
    ensures { result ≡ answered (check_output out.now None) tt }
{
    if out.len() < LONGEST_CODE {
        return Err(Fault::ShortOutput);
    }
    Ok(())
}
