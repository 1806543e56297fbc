// The records of the vertices that a walk has met, in their order.
ghost use Rattle.std.specs.Prelude.{◌≡◌, ◌+◌, ◌*◌, ◌<◌, ◌≤◌, length, drop};
ghost use Rattle.ledger.specs.Diagrams.{Formed};
ghost use Rattle.writing.specs.Records.{Renumbered, PutAt, Filled};

use crate::met::Seen;
use ledger::Vertex;
use memory::reading::read_vertex;
use memory::shelf::Shelf;
use symbols::WireSymbol;
use wire::head::HEAD_LENGTH;
use wire::records::{record_length, write_record};

// The k-th vertex that was met, with its links renumbered.
fn renumbered<S: WireSymbol, B: Shelf<S>>(shelf: &B, seen: &Seen, k: u32) -> Option<Vertex<S>>
    requires { k < seen.now.met }
    ensures { Formed S.Symbol.before (B.Shelf.vertices shelf.now) → length seen.now.places.now ≡ length (B.Shelf.vertices shelf.now) → Renumbered (B.Shelf.vertices shelf.now) seen.now.places.now seen.now.met k result }
{
    let (label, zero, one) = read_vertex(shelf, seen.places[k as usize].list)?;
    Some(Vertex {
        label,
        zero: seen.new_link(zero),
        one: seen.new_link(one),
    })
}

// Writes the record of the k-th vertex to its place in the dispatch.
fn write_kth<S: WireSymbol, B: Shelf<S>>(shelf: &B, seen: &Seen, k: u32, out: &mut [u8])
    requires here { k < seen.now.met }
    requires room { 14 + seen.now.met * (S.WireSymbol.travel.width + 8) ≤ length out.old }
    ensures kept { drop (14 + (k + 1) * (S.WireSymbol.travel.width + 8)) out.new ≡ drop (14 + (k + 1) * (S.WireSymbol.travel.width + 8)) out.old }
    ensures value { Formed S.Symbol.before (B.Shelf.vertices shelf.now) → length seen.now.places.now ≡ length (B.Shelf.vertices shelf.now) → PutAt (B.Shelf.vertices shelf.now) seen.now.places.now seen.now.met k S.WireSymbol.travel.width S.WireSymbol.travel.bytes out.old out.new }
{
    let size = record_length::<S>();
    let from = HEAD_LENGTH + k as usize * size;
    if let Some(vertex) = renumbered(shelf, seen, k) {
        write_record(&vertex, &mut out[from..from + size]);
    }
}

// Writes the records behind the head. By number: of an output that `chunks_mut` lends nothing is told
// after.
pub(crate) fn write_records<S: WireSymbol, B: Shelf<S>>(shelf: &B, seen: &Seen, out: &mut [u8])
    requires { 14 + seen.now.met * (S.WireSymbol.travel.width + 8) ≤ length out.old }
    ensures kept { drop (14 + seen.now.met * (S.WireSymbol.travel.width + 8)) out.new ≡ drop (14 + seen.now.met * (S.WireSymbol.travel.width + 8)) out.old }
    ensures value { Formed S.Symbol.before (B.Shelf.vertices shelf.now) → length seen.now.places.now ≡ length (B.Shelf.vertices shelf.now) → Filled (B.Shelf.vertices shelf.now) seen.now.places.now seen.now.met seen.now.met S.WireSymbol.travel.width S.WireSymbol.travel.bytes out.old out.new }
{
    for k in 0..seen.met {
        write_kth(shelf, seen, k, out);
    }
}
