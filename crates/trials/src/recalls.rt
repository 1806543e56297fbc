// The recall tables: what each recalls of what it is told.
use crate::answer::{Found, run_table};
use crate::running::OLD_SLOT;
use memory::recall::{Question, RecallTable};
use recall_tables::{Blank, SlotTable};
use std::alloc::{AllocError, Global};
use std::{fmt, io};

// A question: a rule and two list numbers.
#[derive(Clone, Copy)]
struct Asked(u8, u32, u32);

impl From<Asked> for Question {
    fn from(asked: Asked) -> Question {
        Question {
            rule: asked.0,
            first: asked.1,
            second: asked.2,
        }
    }
}

impl fmt::Display for Asked {
    fn fmt<W: fmt::Write>(&self, f: &mut fmt::Formatter<W>) -> fmt::Result {
        write!(f, "{} of {} and {}", self.0, self.1, self.2)
    }
}

// Of what is told, the answer too.
#[derive(Clone, Copy)]
enum RecallCall {
    Recall(Asked),
    Tell(Asked, u32),
    Forget,
}

impl fmt::Display for RecallCall {
    fn fmt<W: fmt::Write>(&self, f: &mut fmt::Formatter<W>) -> fmt::Result {
        match *self {
            RecallCall::Recall(asked) => write!(f, "recall {asked}"),
            RecallCall::Tell(asked, answer) => write!(f, "tell {asked} is {answer}"),
            RecallCall::Forget => write!(f, "forget"),
        }
    }
}

const TOLD: [RecallCall; 16] = [
    RecallCall::Recall(Asked(7, 2, 3)),
    RecallCall::Forget,
    RecallCall::Recall(Asked(7, 2, 3)),
    RecallCall::Tell(Asked(7, 2, 3), 4),
    RecallCall::Recall(Asked(7, 2, 3)),
    RecallCall::Recall(Asked(7, 3, 2)),
    RecallCall::Recall(Asked(3, 2, 3)),
    RecallCall::Tell(Asked(7, 2, 3), 9),
    RecallCall::Recall(Asked(7, 2, 3)),
    RecallCall::Tell(Asked(4, 3, 2), 5),
    RecallCall::Recall(Asked(4, 3, 2)),
    RecallCall::Forget,
    RecallCall::Recall(Asked(4, 3, 2)),
    RecallCall::Recall(Asked(7, 2, 3)),
    RecallCall::Tell(Asked(4, 3, 2), 6),
    RecallCall::Recall(Asked(4, 3, 2)),
];

// In one slot a newer entry takes the place of the older.
const REPLACED: [RecallCall; 4] = [
    RecallCall::Tell(Asked(7, 2, 3), 4),
    RecallCall::Tell(Asked(4, 3, 2), 5),
    RecallCall::Recall(Asked(7, 2, 3)),
    RecallCall::Recall(Asked(4, 3, 2)),
];

// Calls one function, and tells what it answers.
fn make<R: RecallTable>(
    heap: Global,
    table: &mut R,
    call: RecallCall,
) -> Result<String, AllocError> {
    match call {
        RecallCall::Recall(asked) => {
            format!(in heap; "{}", Found(table.recall(Question::from(asked))))
        }
        RecallCall::Tell(asked, answer) => {
            table.tell(Question::from(asked), answer);
            format!(in heap; "told")
        }
        RecallCall::Forget => {
            table.forget();
            format!(in heap; "forgotten")
        }
    }
}

// Two functions: only one of the tables is lent memory.
fn on_blank_table(rt: &HostRuntime, calls: &[RecallCall]) -> io::Result<()> {
    println!(rt; "== blank table")?;
    let mut table = Blank;
    run_table(rt, calls, |call| make(rt.alloc(), &mut table, call))
}

fn on_slot_table(rt: &HostRuntime, slots: usize, calls: &[RecallCall]) -> io::Result<()> {
    println!(rt; "== slot table of {slots}")?;
    let mut old_slots = vec![in rt.alloc(); OLD_SLOT; slots]?;
    let mut table = SlotTable::new(old_slots.as_mut_slice());
    run_table(rt, calls, |call| make(rt.alloc(), &mut table, call))
}

pub fn run_all(rt: &HostRuntime) -> io::Result<()> {
    on_blank_table(rt, &TOLD)?;
    on_slot_table(rt, 0, &TOLD)?;
    on_slot_table(rt, 1, &TOLD)?;
    on_slot_table(rt, 16, &TOLD)?;
    on_slot_table(rt, 1, &REPLACED)
}
