// Worked rows of the ledger, and one kind of symbol of which all theorems hold.
ghost use Rattle.std.specs.Prelude.{nat_lt};
ghost use Rattle.ledger.specs.Examples.{Rows};
ghost use Rattle.ledger.specs.Statements.{Canonical};
ghost use Rattle.ledger.specs.declared.examples.Numeral.{Numeral};
ghost use Rattle.symbols.proofs.Coded.{by_code};

use crate::diagrams;
use symbols::Symbol;

// The worked rows, by one statement.
pub fn rows()
    ensures { Rows }
{}

// A number, as a symbol in order of value.
#[derive(Drop, Clone, Copy)]
pub struct Numeral {
    pub value: u32,
}

impl Symbol for Numeral {
    ghost before = { λ a b. nat_lt a.value b.value };

    ghost scatter = { λ a. a.value };

    ghost ordered = { by_code (λ x. x.value) (λ x y e i. record { value = e i }) };

    fn before(self, other: Numeral) -> bool {
        self.value < other.value
    }

    fn scatter(self) -> u32 {
        self.value
    }
}

// The theorems hold of a kind of symbol that there is.
pub fn canonical_numerals()
    ensures { Canonical {S = Numeral} (λ a b. nat_lt a.value b.value) }
{
    diagrams::canonical::<Numeral>()
}
