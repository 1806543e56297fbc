// Why a call of the store is refused.
ghost use Rattle.std.specs.Prelude.{◌≡◌};
ghost use Rattle.store.specs.Refusals.{refusal, from_pick};
ghost use Rattle.store.specs.declared.fault.Fault.TheVariants.{NoSuchRule as no_such_rule, ShelfFull as shelf_full, ShortOutput as short_output};

use counting::picking::PickFault;
use joining::rule::NoSuchRule;
use memory::shelf::Full;
use symbols::{Refusal, ShortOutput};

#[derive(Clone, Copy, Debug, PartialEq, Eq)]
pub enum Fault {
    // No list has this number: which one of the call's list numbers, counted from 0.
    NoSuchList { place: usize },
    // The code is longer than 64 symbols.
    CodeTooLong,
    // The rule is above 7.
    NoSuchRule,
    // The output has too little room.
    ShortOutput,
    // There is too little work space.
    LittleWork,
    // The list has 2^64 codes or more.
    TooManyCodes,
    // The list has no code with so many before it.
    NoSuchCode,
    // The shelf has too few places left.
    ShelfFull,
}

impl From<PickFault> for Fault {
    ghost from_gives = { λ e r. r ≡ from_pick e };

    fn from(e: PickFault) -> Fault {
        match e {
            PickFault::TooMany => Fault::TooManyCodes,
            PickFault::NoSuchCode => Fault::NoSuchCode,
        }
    }
}

impl From<NoSuchRule> for Fault {
    ghost from_gives = { λ _ r. r ≡ no_such_rule };

    fn from(_: NoSuchRule) -> Self {
        Self::NoSuchRule
    }
}

impl From<Full> for Fault {
    ghost from_gives = { λ _ r. r ≡ shelf_full };

    fn from(_: Full) -> Self {
        Self::ShelfFull
    }
}

impl From<ShortOutput> for Fault {
    ghost from_gives = { λ _ r. r ≡ short_output };

    fn from(_: ShortOutput) -> Self {
        Self::ShortOutput
    }
}

impl From<Fault> for Refusal {
    ghost from_gives = { λ fault r. r ≡ refusal fault };

    fn from(fault: Fault) -> Refusal {
        let (number, detail) = match fault {
            Fault::NoSuchList { place } => (2, place),
            Fault::CodeTooLong => (4, 0),
            Fault::NoSuchRule => (5, 0),
            Fault::ShortOutput => (8, 0),
            Fault::LittleWork => (3, 0),
            Fault::TooManyCodes => (6, 0),
            Fault::NoSuchCode => (7, 0),
            Fault::ShelfFull => (9, 0),
        };
        Refusal {
            number,
            detail,
            symbol: None,
        }
    }
}
