// The checks of a dispatch's head, first to last. They hold nothing.
ghost use Rattle.std.specs.Prelude.{◌≡◌};
ghost use Rattle.receiving.specs.Checks.{plain_head, head_checked};

use symbols::WireSymbol;
use wire::faults::ReceiveFault;
use wire::head::{HEAD_LENGTH, Head, VERSION, split_head};
use wire::records::record_length;

// The head of a dispatch that a shelf of this capacity may hold, and the bytes of its records.
pub(crate) fn read_head<'a, S: WireSymbol>(
    bytes: &'a [u8],
    capacity: u32,
) -> Result<(Head, &'a [u8]), ReceiveFault>
    ensures { plain_head result ≡ head_checked S.WireSymbol.travel.kind S.WireSymbol.travel.width capacity bytes.now }
{
    let (head, rest) = split_head(bytes).ok_or(ReceiveFault::BadLength)?;
    if head.whole as usize != bytes.len() {
        return Err(ReceiveFault::BadLength);
    }
    if head.version != VERSION {
        return Err(ReceiveFault::OtherVersion);
    }
    if head.kind != S::kind() {
        return Err(ReceiveFault::OtherKind);
    }
    if bytes.len() != HEAD_LENGTH + head.count as usize * record_length::<S>() {
        return Err(ReceiveFault::BadLength);
    }
    if head.count > capacity {
        return Err(ReceiveFault::ShelfFull);
    }
    Ok((head, rest))
}
