// Running a table on a shelf, over memory that holds old vertices.
use crate::answer::{Found, YesOrNo, run_table};
use crate::running::OLD_PLACE;
use crate::shelf_call::{Drawn, ShelfCall};
use bucket_shelf::{BucketShelf, Entry};
use ledger::Vertex;
use letters::Letter;
use memory::shelf::{Full, Shelf};
use memory::work::Place;
use row_shelf::RowShelf;
use std::alloc::{AllocError, Global};
use std::{fmt, io};

// What an earlier use left in a record: a vertex that the tables ask for.
const OLD_VERTEX: Vertex<Letter> = Vertex {
    label: Letter::CapitalA,
    zero: 0,
    one: 1,
};

// Where a vertex is put, or that there is no room for it.
#[derive(Clone, Copy)]
struct Placed(Result<u32, Full>);

impl fmt::Display for Placed {
    fn fmt<W: fmt::Write>(&self, f: &mut fmt::Formatter<W>) -> fmt::Result {
        match self.0 {
            Ok(n) => write!(f, "{n}"),
            Err(Full) => write!(f, "full"),
        }
    }
}

// Places of work space for these marks, one a vertex.
fn places_of(heap: Global, marks: &str) -> Result<Vec<Place>, AllocError> {
    marks
        .bytes()
        .map(|mark| Place {
            state: u32::from(mark == b'+'),
            ..OLD_PLACE
        })
        .collect(heap)
}

// Calls one function, and tells what it answers.
fn make<B: Shelf<Letter>>(
    heap: Global,
    shelf: &mut B,
    call: ShelfCall,
) -> Result<String, AllocError> {
    match call {
        ShelfCall::Capacity => format!(in heap; "{}", shelf.capacity()),
        ShelfCall::Used => format!(in heap; "{}", shelf.used()),
        ShelfCall::Look(n) => {
            let vertex = shelf
                .look(n)
                .map(|(label, zero, one)| Drawn(label, zero, one));
            format!(in heap; "{}", Found(vertex))
        }
        ShelfCall::Find(Drawn(label, zero, one)) => {
            format!(in heap; "{}", Found(shelf.find(label, zero, one)))
        }
        ShelfCall::Append(Drawn(label, zero, one)) => {
            format!(in heap; "{}", Placed(shelf.append(label, zero, one)))
        }
        ShelfCall::FindOrAppend(Drawn(label, zero, one)) => {
            format!(in heap; "{}", Placed(shelf.find_or_append(label, zero, one)))
        }
        ShelfCall::Cut(n) => {
            shelf.cut(n);
            format!(in heap; "{} used", shelf.used())
        }
        ShelfCall::Gather(marks) => {
            let mut places = places_of(heap, marks)?;
            format!(in heap; "{}", YesOrNo(shelf.gather(&mut places)))
        }
    }
}

// Two functions: each shelf is lent memory of its own.
pub fn on_row_shelf(rt: &HostRuntime, records: usize, table: &[ShelfCall]) -> io::Result<()> {
    println!(rt; "== row shelf of {records}")?;
    let mut old_records = vec![in rt.alloc(); OLD_VERTEX; records]?;
    let mut shelf = RowShelf::new(old_records.as_mut_slice());
    run_table(rt, table, |call| make(rt.alloc(), &mut shelf, call))
}

pub fn on_bucket_shelf(
    rt: &HostRuntime,
    records: usize,
    heads: usize,
    table: &[ShelfCall],
) -> io::Result<()> {
    println!(rt; "== bucket shelf of {records}, {heads} heads")?;
    let entry = Entry {
        vertex: OLD_VERTEX,
        next: 2,
    };
    let mut old_records = vec![in rt.alloc(); entry; records]?;
    let mut old_heads = vec![in rt.alloc(); 1u32; heads]?;
    let mut shelf = BucketShelf::new(old_records.as_mut_slice(), old_heads.as_mut_slice());
    run_table(rt, table, |call| make(rt.alloc(), &mut shelf, call))
}
