// A symbol whose codes have a text.
//
// A kind says what a text spells, and which text a code has; reading and writing are inverse. Both take time in the length
// of the text, and neither changes anything where it refuses.
#![tactic(auto)]

ghost use Rattle.std.specs.Prelude.{◌≡◌, ℕ, List, Ok, Result, OnOk, slice_set};
ghost use Rattle.texts.specs.Refusals.{refusal};
ghost use Rattle.texts.specs.Texts.{OwnText, ReadTo, WrittenTo};
ghost use Rattle.texts.specs.declared.TextFault.{TextFault};
ghost use Rattle.texts.specs.declared.TextFault.TheVariants.{Symbol as symbol_fault};

use symbols::{Refusal, ShortOutput, Symbol, SymbolFault};

pub mod decimals;

// Why a text spells no code: it has another form, or a part of it makes no symbol.
#[derive(Clone, Copy, Debug, PartialEq, Eq)]
pub enum TextFault {
    Unreadable,
    Symbol(SymbolFault),
}

impl From<SymbolFault> for TextFault {
    ghost from_gives = { λ symbol r. r ≡ symbol_fault symbol };

    fn from(symbol: SymbolFault) -> TextFault {
        TextFault::Symbol(symbol)
    }
}

// Refusal 18, or the symbol's own.
impl From<TextFault> for Refusal {
    ghost from_gives = { λ fault r. r ≡ refusal fault };

    fn from(fault: TextFault) -> Refusal {
        match fault {
            TextFault::Unreadable => Refusal {
                number: 18,
                detail: 0,
                symbol: None,
            },
            TextFault::Symbol(fault) => Refusal::from(fault),
        }
    }
}

pub trait TextSymbol: Symbol {
    // what a text spells
    ghost spells: { List ℕ → Result (List Self) TextFault };

    // the text of a code
    ghost text: { List Self → List ℕ };

    // Reads the code of a text to the start of `out`, as much of it as there is room for, and answers how many symbols the
    // code has.
    fn read_code(from: &[u8], out: &mut [Self]) -> Result<usize, TextFault>
        ensures { ReadTo (spells from.now) out.old result out.new };

    // Writes the text of `code` to the start of `out`, and answers its length. What is written spells the code again.
    fn write_code(code: &[Self], out: &mut [u8]) -> Result<usize, ShortOutput>
        ensures answer { WrittenTo (text code.now) out.old result out.new }
        ensures back { OnOk result (spells (text code.now) ≡ Ok code.now) };

    ghost own: { OwnText spells text };
}

// Writes a symbol to a place of an output, if the output has that place.
pub fn put<S: Copy>(out: &mut [S], place: usize, symbol: S)
    ensures { out.new ≡ slice_set out.old place symbol }
{
    // By index: what `get_mut` lends leaves the rest of the slice untold.
    if place < out.len() {
        out[place] = symbol;
    }
}
