// The record of a vertex: its label, its zero link and its one link.
ghost use Rattle.std.specs.Prelude.{◌≡◌, ◌+◌, ◌-◌, ◌*◌, ◌≤◌, ◌++◌, length, drop};
ghost use Rattle.ledger.specs.Dispatch.{be4};
ghost use Rattle.wire.specs.Heads.{word};
ghost use Rattle.wire.specs.Back.{RecordsBack};
ghost use Rattle.wire.specs.Records.{record_of, record_bytes, zero_after};

use crate::faults::RecordFault;
use crate::head::be_word;
use ledger::Vertex;
use symbols::{Symbol, WireSymbol};

// How many bytes a record has: those of its label, and four for each link.
pub fn record_length<S: WireSymbol>() -> usize
    ensures { result ≡ S.WireSymbol.travel.width + 8 }
{
    S::width() + 8
}

// The number in the four bytes from `at` on.
fn word_at(bytes: &[u8], at: usize) -> u32
    requires { at + 4 ≤ length bytes.now }
    ensures { result ≡ word bytes.now at }
{
    be_word(bytes[at], bytes[at + 1], bytes[at + 2], bytes[at + 3])
}

// The vertex `own`, from the bytes of its record.
pub fn read_record<S: WireSymbol>(own: u32, bytes: &[u8]) -> Result<Vertex<S>, RecordFault>
    requires { length bytes.now ≡ S.WireSymbol.travel.width + 8 }
    ensures { result ≡ record_of S.WireSymbol.travel own bytes.now }
{
    let width = S::width();
    let label = S::read(&bytes[..width])?;
    let zero = word_at(bytes, width);
    let one = word_at(bytes, width + 4);
    if zero >= own || one >= own {
        return Err(RecordFault::LinkNotBelow);
    }
    if one == 0 {
        return Err(RecordFault::OneLinkZero);
    }
    Ok(Vertex { label, zero, one })
}

// Whether a zero link is no vertex, or its record's label comes after this one.
pub fn zero_label_after<S: WireSymbol>(label: S, zero: u32, records: &[u8]) -> bool
    requires { (zero - 1) * (S.WireSymbol.travel.width + 8) ≤ length records.now }
    ensures { result ≡ zero_after S.Symbol.before S.WireSymbol.travel records.now label zero }
{
    if zero < 2 {
        return true;
    }
    let start = (zero - 2) as usize * record_length::<S>();
    S::read(&records[start..start + S::width()]).is_ok_and(|later| label.before(later))
}

// Writes two links to the start of `out`.
fn write_links(zero: u32, one: u32, out: &mut [u8])
    requires { 8 ≤ length out.old }
    ensures { out.new ≡ be4 zero ++ (be4 one ++ drop 8 out.old) }
{
    out[..4].copy_from_slice(&zero.to_be_bytes());
    out[4..8].copy_from_slice(&one.to_be_bytes());
}

// Writes the record of a vertex to the start of `out`.
pub fn write_record<S: WireSymbol>(v: &Vertex<S>, out: &mut [u8])
    requires { S.WireSymbol.travel.width + 8 ≤ length out.old }
    ensures { out.new ≡ record_bytes S.WireSymbol.travel.bytes v.now ++ drop (S.WireSymbol.travel.width + 8) out.old }
{
    v.label.write(out);
    write_links(v.zero, v.one, &mut out[S::width()..]);
}

// What is written of formed vertices reads back as those vertices.
pub fn records_read_back<S: WireSymbol>()
    ensures { RecordsBack S.Symbol.before S.WireSymbol.travel }
{}
