// Writing a list as a dispatch.
//
// A walk from the list meets its vertices in the order in which laying the list down in an empty ledger numbers them; then
// the length is known, and the head and the records are written. The time is linear in the vertices that are reached; no
// other part of the work space is read or written.
#![tactic(auto)]

mod met;
mod records;
mod walk;

ghost use Rattle.std.specs.Prelude.{◌≡◌, ◌+◌, ◌*◌, ◌≤◌, length};
ghost use Rattle.ledger.specs.Diagrams.{Sound};
ghost use Rattle.ledger.specs.Ledger.{codes};
ghost use Rattle.wire.specs.Written.{written};
ghost use Rattle.writing.specs.Writes.{Writes, PastKept};

use crate::records::write_records;
use crate::walk::walk;
use memory::shelf::Shelf;
use memory::work::Place;
use symbols::{ShortOutput, WireSymbol};
use wire::head::{HEAD_LENGTH, Head, VERSION, write_head};
use wire::records::record_length;

// The dispatch of a list at the start of `out`, and its length.
pub fn write<S: WireSymbol, B: Shelf<S>>(
    shelf: &B,
    list: u32,
    out: &mut [u8],
    work: &mut [Place],
) -> Result<usize, ShortOutput>
    requires room { 2 * B.Shelf.capacity shelf.now + 256 ≤ length work.old }
    requires good { list ≤ length (B.Shelf.vertices shelf.now) + 1 }
    ensures kept { PastKept out.old result out.new }
    ensures answer { Sound S.Symbol.before (B.Shelf.vertices shelf.now) → Writes (written S.Symbol.before S.WireSymbol.travel (codes (B.Shelf.vertices shelf.now) list)) out.old result out.new }
{
    let used = shelf.used() as usize;
    let (seen, stack) = work.split_at_mut(used);
    let seen = walk(shelf, list, seen, stack);
    let whole = HEAD_LENGTH + seen.met as usize * record_length::<S>();
    if out.len() < whole {
        return Err(ShortOutput);
    }
    let head = Head {
        whole: whole as u32,
        version: VERSION,
        kind: S::kind(),
        count: seen.met,
        root: seen.new_link(list),
    };
    write_head(head, out);
    write_records(shelf, &seen, out);
    Ok(whole)
}
