// The tables of calls on a shelf.
use crate::shelf_call::{Drawn, ShelfCall};
use crate::shelf_running::{on_bucket_shelf, on_row_shelf};
use letters::Letter;
use std::io;

// What lies in memory is no vertex; of equal vertices the lowest is found.
const FILLED: [ShelfCall; 31] = [
    ShelfCall::Capacity,
    ShelfCall::Used,
    ShelfCall::Look(2),
    ShelfCall::Cut(0),
    ShelfCall::Find(Drawn(Letter::CapitalA, 0, 1)),
    ShelfCall::Append(Drawn(Letter::CapitalA, 0, 1)),
    ShelfCall::Append(Drawn(Letter::CapitalB, 2, 1)),
    ShelfCall::Append(Drawn(Letter::CapitalA, 0, 1)),
    ShelfCall::Append(Drawn(Letter::CapitalC, 0, 1)),
    ShelfCall::Used,
    ShelfCall::Look(0),
    ShelfCall::Look(1),
    ShelfCall::Look(2),
    ShelfCall::Look(4),
    ShelfCall::Look(5),
    ShelfCall::Look(4294967295),
    ShelfCall::Find(Drawn(Letter::CapitalA, 0, 1)),
    ShelfCall::Find(Drawn(Letter::CapitalB, 2, 1)),
    ShelfCall::Find(Drawn(Letter::CapitalC, 0, 1)),
    ShelfCall::Find(Drawn(Letter::CapitalA, 1, 0)),
    ShelfCall::FindOrAppend(Drawn(Letter::CapitalA, 0, 1)),
    ShelfCall::FindOrAppend(Drawn(Letter::CapitalC, 0, 1)),
    ShelfCall::Cut(4),
    ShelfCall::Cut(2),
    ShelfCall::Look(4),
    ShelfCall::Find(Drawn(Letter::CapitalA, 0, 1)),
    ShelfCall::Cut(1),
    ShelfCall::Find(Drawn(Letter::CapitalB, 2, 1)),
    ShelfCall::FindOrAppend(Drawn(Letter::CapitalB, 2, 1)),
    ShelfCall::Find(Drawn(Letter::CapitalB, 2, 1)),
    ShelfCall::Used,
];

// Marks too few and too many; a link to an unmarked vertex, and one not below its own number.
const GATHERED: [ShelfCall; 24] = [
    ShelfCall::Cut(0),
    ShelfCall::Append(Drawn(Letter::CapitalB, 0, 1)),
    ShelfCall::Append(Drawn(Letter::CapitalA, 0, 1)),
    ShelfCall::Append(Drawn(Letter::CapitalC, 3, 1)),
    ShelfCall::Gather("++"),
    ShelfCall::Gather("++++"),
    ShelfCall::Gather("+-+"),
    ShelfCall::Used,
    ShelfCall::Look(4),
    ShelfCall::Gather("-++"),
    ShelfCall::Used,
    ShelfCall::Look(2),
    ShelfCall::Look(3),
    ShelfCall::Look(4),
    ShelfCall::Find(Drawn(Letter::CapitalC, 2, 1)),
    ShelfCall::Find(Drawn(Letter::CapitalB, 0, 1)),
    ShelfCall::Append(Drawn(Letter::CapitalD, 9, 1)),
    ShelfCall::Gather("+++"),
    ShelfCall::Look(4),
    ShelfCall::Gather("++-"),
    ShelfCall::Used,
    ShelfCall::Gather("--"),
    ShelfCall::Used,
    ShelfCall::Gather(""),
];

const WITHOUT_ROOM: [ShelfCall; 9] = [
    ShelfCall::Capacity,
    ShelfCall::Cut(0),
    ShelfCall::Append(Drawn(Letter::CapitalA, 0, 1)),
    ShelfCall::Find(Drawn(Letter::CapitalA, 0, 1)),
    ShelfCall::FindOrAppend(Drawn(Letter::CapitalA, 0, 1)),
    ShelfCall::Look(2),
    ShelfCall::Gather("+"),
    ShelfCall::Gather(""),
    ShelfCall::Used,
];

pub fn run_all(rt: &HostRuntime) -> io::Result<()> {
    on_row_shelf(rt, 3, &FILLED)?;
    on_bucket_shelf(rt, 3, 2, &FILLED)?;
    on_row_shelf(rt, 3, &GATHERED)?;
    on_bucket_shelf(rt, 3, 2, &GATHERED)?;
    on_row_shelf(rt, 0, &WITHOUT_ROOM)?;
    on_bucket_shelf(rt, 3, 0, &WITHOUT_ROOM)
}
