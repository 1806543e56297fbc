// Why a dispatch is refused: a symbol's fault inside a record's fault inside the dispatch's.
ghost use Rattle.std.specs.Prelude.{◌≡◌};
ghost use Rattle.wire.specs.declared.faults.RecordFault.TheVariants.{Label};
ghost use Rattle.wire.specs.declared.faults.ReceiveFault.TheVariants.{Record, ShelfFull};
ghost use Rattle.wire.specs.Refusals.{record_refusal, receive_refusal};

use memory::shelf::Full;
use symbols::{Refusal, SymbolFault};

// What is wrong with one record.
#[derive(Clone, Copy, Debug, PartialEq, Eq)]
pub enum RecordFault {
    // The label is no symbol.
    Label(SymbolFault),
    // A link is not below the record's own number.
    LinkNotBelow,
    // The one link is 0.
    OneLinkZero,
    // The label does not come before that of the zero link.
    LabelNotAfter,
}

// A faulty record, by its place counted from 0.
#[derive(Clone, Copy, Debug, PartialEq, Eq)]
pub struct FaultyRecord {
    pub place: u32,
    pub fault: RecordFault,
}

// Why a dispatch is refused.
#[derive(Clone, Copy, Debug, PartialEq, Eq)]
pub enum ReceiveFault {
    // There is too little work space.
    LittleWork,
    // The bytes are too few, or not as many as the head says.
    BadLength,
    // The version is not 1.
    OtherVersion,
    // The kind is not that of these symbols.
    OtherKind,
    Record(FaultyRecord),
    // The bytes are not those that writing the root's list gives.
    NotAsWritten,
    // A code is longer than 64 symbols.
    CodeTooLong,
    // The shelf has too few places left.
    ShelfFull,
}

impl From<SymbolFault> for RecordFault {
    ghost from_gives = { λ e r. r ≡ Label e };

    fn from(e: SymbolFault) -> Self {
        Self::Label(e)
    }
}

impl From<FaultyRecord> for ReceiveFault {
    ghost from_gives = { λ e r. r ≡ Record e };

    fn from(e: FaultyRecord) -> Self {
        Self::Record(e)
    }
}

impl From<Full> for ReceiveFault {
    ghost from_gives = { λ e r. r ≡ ShelfFull };

    fn from(_: Full) -> Self {
        Self::ShelfFull
    }
}

// A number, as the rules tell refusals.
impl From<FaultyRecord> for Refusal {
    ghost from_gives = { λ faulty r. r ≡ record_refusal faulty };

    fn from(faulty: FaultyRecord) -> Self {
        let (number, symbol) = match faulty.fault {
            RecordFault::Label(fault) => (13, Some(fault)),
            RecordFault::LinkNotBelow => (14, None),
            RecordFault::OneLinkZero => (15, None),
            RecordFault::LabelNotAfter => (16, None),
        };
        Refusal {
            number,
            detail: faulty.place as usize,
            symbol,
        }
    }
}

// A number, as the rules tell refusals.
impl From<ReceiveFault> for Refusal {
    ghost from_gives = { λ fault r. r ≡ receive_refusal fault };

    fn from(fault: ReceiveFault) -> Self {
        let number = match fault {
            ReceiveFault::LittleWork => 3,
            ReceiveFault::BadLength => 10,
            ReceiveFault::OtherVersion => 11,
            ReceiveFault::OtherKind => 12,
            ReceiveFault::Record(faulty) => return Refusal::from(faulty),
            ReceiveFault::NotAsWritten => 17,
            ReceiveFault::CodeTooLong => 4,
            ReceiveFault::ShelfFull => 9,
        };
        Refusal {
            number,
            detail: 0,
            symbol: None,
        }
    }
}
