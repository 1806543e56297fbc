// A conversation over one kind of symbol, from the second line on.
use crate::input::Conversation;
use bucket_shelf::{BucketShelf, Entry};
use desk::serve::serve;
use ledger::Vertex;
use memory::work::Place;
use recall_tables::{Slot, SlotTable};
use std::alloc::Global;
use std::io;
use std::io::{Error, ErrorKind};
use store::store::Store;
use symbols::LONGEST_CODE;
use texts::TextSymbol;

// How many vertices there may be, and how many buckets they are spread over.
const CAPACITY: usize = 1024;

const HEADS: usize = 2048;

// How many answers of joins are recalled.
const SLOTS: usize = 8192;

// What the calls need of work space.
const PLACES: usize = 2 * CAPACITY + 256;

// One symbol more than a code may have: so a longer one shows.
const CODE_ROOM: usize = LONGEST_CODE + 1;

// More than the text of any code, and the longest answer line.
const TEXT_ROOM: usize = 1024;

// Serves the lines that are left, each with one answer line. The symbol is any one, to fill memory with.
pub fn converse<S: TextSymbol + Clone>(
    heap: Global,
    blank: S,
    lines: &mut Conversation<'_>,
) -> io::Result<()> {
    let vertex = Vertex {
        label: blank,
        zero: 0,
        one: 0,
    };
    let mut records = vec![in heap; Entry { vertex, next: 0 }; CAPACITY]?;
    let mut heads = vec![in heap; 0u32; HEADS]?;
    let mut slots = vec![in heap; Slot::default(); SLOTS]?;
    let mut work = vec![in heap; Place::default(); PLACES]?;
    let mut code = vec![in heap; blank; CODE_ROOM]?;
    let mut text = vec![in heap; 0u8; TEXT_ROOM]?;
    let mut answer = vec![in heap; 0u8; TEXT_ROOM]?;
    let shelf = BucketShelf::new(&mut records, &mut heads);
    let recall = SlotTable::new(&mut slots);
    let mut store = Store::fit_out(shelf, recall);
    // By count: input may have no end, and a loop must have one.
    for _ in 0..u64::MAX {
        let Some(line) = lines.next_line()? else {
            return lines.end();
        };
        // By cases: after a `map_err` nothing is told of the length.
        let Ok(n) = serve(
            &mut store,
            line,
            &mut code,
            &mut work,
            &mut text,
            &mut answer,
        ) else {
            return Err(Error::from(ErrorKind::WriteZero));
        };
        lines.answer(&answer[0..n])?;
    }
    Err(Error::from(ErrorKind::TimedOut))
}
