// Running a table on a store: over a row shelf with the blank table, and over a bucket shelf with a slot table, so that
// the same calls must answer the same.
use crate::answer::{Spelled, Told, YesOrNo, run_table};
use crate::call::Call;
use bucket_shelf::{BucketShelf, Entry};
use ledger::Vertex;
use memory::recall::{Question, RecallTable};
use memory::shelf::Shelf;
use memory::work::Place;
use recall_tables::{Blank, Slot, SlotTable};
use row_shelf::RowShelf;
use std::alloc::{AllocError, Global};
use std::io;
use store::store::Store;
use symbols::LONGEST_CODE;
use texts::TextSymbol;

// What a store is given: how many vertices its shelf has room for, and how many places of work space there are.
#[derive(Clone, Copy)]
pub struct Memory {
    pub capacity: usize,
    pub places: usize,
}

impl Memory {
    // Just as much work space as is needed.
    pub fn enough(capacity: u8) -> Self {
        let capacity = usize::from(capacity);
        Memory {
            capacity,
            places: 2 * capacity + 256,
        }
    }
}

// A place as an earlier call may have left it.
pub const OLD_PLACE: Place = Place {
    state: 3,
    list: 5,
    other: 4,
    number: 7,
    count: 9,
};

// A slot that names itself: the answer of an earlier store to its first question.
pub const OLD_SLOT: Slot = Slot {
    question: Question {
        rule: 7,
        first: 2,
        second: 3,
    },
    answer: 99,
    turn: 0,
    filled: 0,
};

// A vertex that an earlier store left.
fn old_vertex<S: TextSymbol + Clone>(label: S) -> Vertex<S> {
    Vertex {
        label,
        zero: 9,
        one: 2,
    }
}

// A store, and what its calls are lent: memory for codes as an earlier use left it, full of one symbol, and work space.
#[derive(Drop)]
struct Trial<S: TextSymbol + Clone, B: Shelf<S> + Drop, R: RecallTable + Drop> {
    heap: Global,
    store: Store<S, B, R>,
    old: S,
    work: Vec<Place>,
}

impl<S: TextSymbol + Clone, B: Shelf<S> + Drop, R: RecallTable + Drop> Trial<S, B, R> {
    // Reads a code of at most one symbol more than a call takes. A text that spells no code gives the empty code; the
    // tables have no such text.
    fn read(&self, text: &str) -> Result<Vec<S>, AllocError> {
        let mut code = vec![in self.heap; self.old; LONGEST_CODE + 1]?;
        let length = S::read_code(text.as_bytes(), &mut code).unwrap_or(0);
        code.truncate(length);
        Ok(code)
    }

    // Makes one call, and tells what it answers.
    fn make(&mut self, call: Call) -> Result<String, AllocError> {
        let heap = self.heap;
        match call {
            Call::Add(text, list) => {
                let code = self.read(text)?;
                format!(in heap; "{}", Told(self.store.add(list, &code, &mut self.work)))
            }
            Call::Remove(text, list) => {
                let code = self.read(text)?;
                format!(in heap; "{}", Told(self.store.remove(list, &code, &mut self.work)))
            }
            Call::Join(rule, first, second) => {
                format!(in heap;
                    "{}",
                    Told(self.store.join(rule, first, second, &mut self.work))
                )
            }
            Call::Holds(text, list) => {
                let code = self.read(text)?;
                format!(in heap; "{}", Told(self.store.holds(list, &code).map(YesOrNo)))
            }
            Call::Under(list, text) => {
                let code = self.read(text)?;
                format!(in heap; "{}", Told(self.store.under(list, &code)))
            }
            Call::Count(list) => format!(in heap;
                "{}",
                Told(self.store.count(list, &mut self.work))
            ),
            Call::Vertices(list) => {
                format!(in heap; "{}", Told(self.store.vertices(list, &mut self.work)))
            }
            Call::Pick(list, k, room) => {
                let mut out = vec![in heap; self.old; room]?;
                let length = self.store.pick(list, k, &mut out, &mut self.work);
                out.truncate(length.unwrap_or(0));
                format!(in heap; "{}", Told(length.map(|_| Spelled(out.as_slice()))))
            }
            Call::Look(n) => {
                let Some((label, zero, one)) = self.store.look(n) else {
                    return format!(in heap; "nothing");
                };
                let label = vec![in heap; label; 1]?;
                format!(in heap; "{}, {zero}, {one}", Spelled(&label))
            }
            Call::Used => format!(in heap; "{}", self.store.used()),
        }
    }
}

// Makes the calls of a table on a store over this shelf and this recall table.
fn run<S: TextSymbol + Clone, B: Shelf<S> + Drop, R: RecallTable + Drop>(
    rt: &HostRuntime,
    shelf: B,
    recall: R,
    old: S,
    places: usize,
    table: &[Call],
) -> io::Result<()> {
    let heap = rt.alloc();
    let mut trial = Trial {
        heap,
        store: Store::fit_out(shelf, recall),
        old,
        work: vec![in heap; OLD_PLACE; places]?,
    };
    run_table(rt, table, |call| trial.make(call))
}

// Two functions, here and below: each shelf is lent memory of its own.
fn on_row_shelf<S: TextSymbol + Clone>(
    rt: &HostRuntime,
    old: S,
    memory: Memory,
    table: &[Call],
) -> io::Result<()> {
    let mut records = vec![in rt.alloc(); old_vertex(old); memory.capacity]?;
    let shelf = RowShelf::new(records.as_mut_slice());
    run(rt, shelf, Blank, old, memory.places, table)
}

fn on_bucket_shelf<S: TextSymbol + Clone>(
    rt: &HostRuntime,
    old: S,
    memory: Memory,
    table: &[Call],
) -> io::Result<()> {
    let entry = Entry {
        vertex: old_vertex(old),
        next: 2,
    };
    let mut records = vec![in rt.alloc(); entry; memory.capacity]?;
    let mut heads = vec![in rt.alloc(); 1u32; 4]?;
    let mut slots = vec![in rt.alloc(); OLD_SLOT; 16]?;
    let shelf = BucketShelf::new(records.as_mut_slice(), heads.as_mut_slice());
    run(
        rt,
        shelf,
        SlotTable::new(slots.as_mut_slice()),
        old,
        memory.places,
        table,
    )
}

// Runs a table on a fresh store over each shelf.
pub fn run_on_both<S: TextSymbol + Clone>(
    rt: &HostRuntime,
    title: &str,
    old: S,
    memory: Memory,
    table: &[Call],
) -> io::Result<()> {
    let capacity = memory.capacity;
    println!(rt; "== {title}, capacity {capacity}; row shelf, blank table")?;
    on_row_shelf(rt, old, memory, table)?;
    println!(rt; "== {title}, capacity {capacity}; bucket shelf, slot table")?;
    on_bucket_shelf(rt, old, memory, table)
}
