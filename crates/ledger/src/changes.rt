// What laying down and clearing out do to sound vertices: so vertices are sound after any run of them.
ghost use Rattle.ledger.specs.Statements.{FreshSound, LayingDown, ClearingOut};

use symbols::Symbol;

// A fresh ledger's vertices are sound.
pub fn fresh_sound<S: Symbol>()
    ensures { FreshSound S.Symbol.before }
{}

// Laying down only appends, and appends what the ledger says.
pub fn laying_down<S: Symbol>()
    ensures { LayingDown S.Symbol.before }
{}

// Clearing out keeps just the kept lists and all reached from them, in their order, each with its codes.
pub fn clearing_out<S: Symbol>()
    ensures { ClearingOut S.Symbol.before }
{}
