// The records of a dispatch, each of which was checked: record k is the vertex with number k + 2.
ghost use Rattle.std.specs.Prelude.{◌≡◌, ◌+◌, ◌*◌, ◌<◌, ◌≤◌, List, [], length, Some};
ghost use Rattle.std.specs.List.{slice_get};
ghost use Rattle.ledger.specs.declared.Vertex.{Vertex as Row};
ghost use Rattle.ledger.specs.Diagrams.{look, Formed};
ghost use Rattle.wire.specs.Records.{record_of, records_in};
ghost use Rattle.receiving.specs.Checks.{record_at, record_checked};
ghost use Rattle.receiving.specs.Reads.{LinksFall, rows_in, Whole};

use ledger::Vertex;
use std::marker::{Model, PhantomData};
use symbols::{Symbol, WireSymbol};
use wire::faults::{FaultyRecord, RecordFault};
use wire::records::{read_record, record_length, zero_label_after};

// The vertex in record k.
fn read_at<S: WireSymbol>(records: &[u8], k: u32) -> Result<Vertex<S>, RecordFault>
    requires few { k ≤ 1000000 }
    requires there { (k + 1) * (S.WireSymbol.travel.width + 8) ≤ length records.now }
    ensures { result ≡ record_of S.WireSymbol.travel (k + 2) (record_at S.WireSymbol.travel.width records.now k) }
{
    let size = record_length::<S>();
    let start = k as usize * size;
    read_record(k + 2, &records[start..start + size])
}

// One record, with the label of its zero link.
fn check_record<S: WireSymbol>(records: &[u8], k: u32) -> Result<Vertex<S>, RecordFault>
    requires few { k ≤ 1000000 }
    requires there { (k + 1) * (S.WireSymbol.travel.width + 8) ≤ length records.now }
    ensures { result ≡ record_checked S.Symbol.before S.WireSymbol.travel records.now k }
{
    let vertex: Vertex<S> = read_at(records, k)?;
    if !zero_label_after(vertex.label, vertex.zero, records) {
        return Err(RecordFault::LabelNotAfter);
    }
    Ok(vertex)
}

// A clause sees the vertices that the bytes read as.
#[derive(Drop)]
pub(crate) struct Records<'a, S: WireSymbol> {
    bytes: &'a [u8],
    count: u32,
    symbols: PhantomData<S>,
}

impl<'a, S: WireSymbol> Model for Records<'a, S> {
    ghost Value = { List (Row S) };

    ghost view = { λ r. rows_in S.Symbol.before S.WireSymbol.travel r.count r.bytes.now };

    ghost invariant = { λ r. (r.count ≤ 1000000) × Whole S.Symbol.before S.WireSymbol.travel r.count r.bytes.now };
}

impl<'a, S: WireSymbol> Records<'a, S> {
    // So many records, checked first to last. Each is checked by its number, beside the label of a lower one.
    pub(crate) fn checked(bytes: &'a [u8], count: u32) -> Result<Records<'a, S>, FaultyRecord>
        requires few { count ≤ 1000000 }
        requires long { length bytes.now ≡ count * (S.WireSymbol.travel.width + 8) }
        ensures { result ≡ records_in S.Symbol.before S.WireSymbol.travel count [] bytes.now }
    {
        for place in 0..count {
            check_record::<S>(bytes, place).map_err(|fault| FaultyRecord { place, fault })?;
        }
        Ok(Records {
            bytes,
            count,
            symbols: PhantomData,
        })
    }

    pub(crate) fn count(&self) -> u32
        ensures value { result ≡ length self.now }
        ensures few { result ≤ 1000000 }
        ensures formed { Formed S.Symbol.before self.now }
    {
        self.count
    }

    // The vertex in record k.
    pub(crate) fn record(&self, k: u32) -> Vertex<S>
        requires { k < length self.now }
        ensures value { slice_get self.now k ≡ Some result }
        ensures below { (result.zero < k + 2) × (result.one < k + 2) }
        ensures formed { Formed S.Symbol.before self.now }
    {
        read_at(self.bytes, k).unwrap()
    }

    // The vertex with a number: nothing for a terminal, and past the records.
    pub(crate) fn vertex(&self, n: u32) -> Option<Vertex<S>>
        ensures below { LinksFall n result }
        ensures value { result ≡ look self.now n }
    {
        let k = n.checked_sub(2)?;
        if k >= self.count {
            return None;
        }
        Some(self.record(k))
    }
}
