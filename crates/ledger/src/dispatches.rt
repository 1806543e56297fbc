// What is written of a list shows its codes and nothing else.
ghost use Rattle.ledger.specs.Statements.{ReadBack, Accepted, Received, WrittenAlike};

use symbols::{Symbol, WireSymbol};

// What is written of a list is read back as that list.
pub fn read_back<S: Symbol>()
    ensures { ReadBack S.Symbol.before }
{}

// Which vertices are just what writing their root's list gives.
pub fn accepted<S: Symbol>()
    ensures { Accepted S.Symbol.before }
{}

// Which bytes are just what writing their root's list gives.
pub fn received<S: WireSymbol>()
    ensures { Received S.Symbol.before S.WireSymbol.travel }
{}

// Equal bytes exactly for the same codes.
pub fn written_alike<S: WireSymbol>()
    ensures { WrittenAlike S.Symbol.before S.WireSymbol.travel }
{}
