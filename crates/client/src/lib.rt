// What a user of the store has from its contracts, and with no work: a store is fitted out and called, and no call asks
// anything.
#![tactic(auto)]

ghost use Rattle.std.specs.Prelude.{◌≡◌, ◌+◌, length};

use memory::recall::RecallTable;
use memory::shelf::Shelf;
use memory::work::Place;
use store::fault::Fault;
use store::store::Store;
use symbols::Symbol;

// The same bag twice: a code added to the empty list a second time is answered as the first time. It has one number; or it
// is refused both times for the same reason, for instance by a full shelf, on which the first time has left nothing.
pub fn same_bag_twice<S: Symbol, B: Shelf<S> + Drop, R: RecallTable + Drop>(
    shelf: B,
    recall: R,
    code: &[S],
    work: &mut [Place],
) -> (Result<u32, Fault>, Result<u32, Fault>)
    ensures { result.1 ≡ result.0 }
{
    let mut store = Store::fit_out(shelf, recall);
    let first = store.add(0, code, work);
    let second = store.add(0, code, work);
    (first, second)
}

// How many vertices more there is room for. No store has more vertices than it may have, whatever led to it.
pub fn room_left<S: Symbol, B: Shelf<S>, R: RecallTable>(store: &Store<S, B, R>) -> u32
    ensures { length store.now.vertices + result ≡ store.now.capacity }
{
    store.capacity() - store.used()
}
