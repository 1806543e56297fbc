// What every kind of symbol offers, and what a symbol that travels offers besides.
//
// A code is a sequence of symbols. The store is written once, over any kind of symbol: it asks for an order and for a
// number to scatter by, and no more. Only a dispatch asks for bytes.
#![tactic(auto)]

ghost use Rattle.std.specs.Prelude.{◌≡◌, ℕ, ◌≤◌, Bool, true, false, ◌↔◌, List, ◌++◌, length, drop, Result};
ghost use Rattle.symbols.specs.Order.{Order, OneBefore};
ghost use Rattle.symbols.specs.Refusals.{symbol_refusal};
ghost use Rattle.symbols.specs.Wire.{Travel, WireLaws};
ghost use Rattle.symbols.specs.declared.SymbolFault.{SymbolFault};

// No code has more symbols.
pub const LONGEST_CODE: usize = 64;

// The output is too short for what was to be written there, and is left as it was.
#[derive(Clone, Copy, Debug, PartialEq, Eq)]
pub struct ShortOutput;

// The byte that makes no symbol.
#[derive(Clone, Copy, Debug, PartialEq, Eq)]
pub struct SymbolFault {
    pub byte: u8,
}

// A refusal as it is told: its number, what it carries, and the symbol's own refusal where it carries that whole.
#[derive(Clone, Copy)]
pub struct Refusal {
    pub number: u8,
    pub detail: usize,
    pub symbol: Option<SymbolFault>,
}

// Refusal 1, with the byte.
impl From<SymbolFault> for Refusal {
    ghost from_gives = { λ fault r. r ≡ symbol_refusal fault };

    fn from(fault: SymbolFault) -> Refusal {
        Refusal {
            number: 1,
            detail: usize::from(fault.byte),
            symbol: None,
        }
    }
}

// A symbol of some kind: it comes before others of its kind, or not, and has a number to scatter by.
pub trait Symbol: Copy {
    ghost before: { Self → Self → Bool };

    // the scatter number, the same each time for the same symbol
    ghost scatter: { Self → ℕ };

    fn before(self, other: Self) -> bool
        ensures { result ≡ before self other };

    fn scatter(self) -> u32
        ensures { result ≡ scatter self };

    ghost ordered: { Order before };
}

// A symbol that travels: its kind has a number and a width, and each symbol has its bytes.
pub trait WireSymbol: Symbol {
    // the number, the width, the bytes of a symbol, and what bytes read as
    ghost travel: { Travel Self };

    fn kind() -> u8
        ensures { result ≡ travel.kind };

    fn width() -> usize
        ensures { result ≡ travel.width };

    // Writes the symbol's bytes to the start of `out`.
    fn write(self, out: &mut [u8])
        requires { travel.width ≤ length out.old }
        ensures { out.new ≡ travel.bytes self ++ drop travel.width out.old };

    // The symbol that exactly these bytes are.
    fn read(from: &[u8]) -> Result<Self, SymbolFault>
        requires { length from.now ≡ travel.width }
        ensures { result ≡ travel.reads from.now };

    ghost wired: { WireLaws travel };
}

// Whether two symbols are one and the same: neither comes before the other.
pub fn same<S: Symbol>(a: S, b: S) -> bool
    ensures { (result ≡ true) ↔ (a ≡ b) }
{
    !a.before(b) && !b.before(a)
}

// Of two symbols that differ, exactly one comes before the other.
pub fn one_before<S: Symbol>(a: S, b: S) -> bool
    ensures value { result ≡ S.Symbol.before a b }
    ensures law { OneBefore S.Symbol.before }
{
    a.before(b)
}
