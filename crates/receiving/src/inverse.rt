// Writing and receiving are inverse. Each theorem stands on the contract of a function that does nothing else.
ghost use Rattle.receiving.specs.Statements.{OnlyWritten, TakesWritten};

use symbols::{Symbol, WireSymbol};

// Bytes that are accepted are what writing gives.
pub fn only_written<S: WireSymbol>()
    ensures { OnlyWritten S.Symbol.before S.WireSymbol.travel }
{}

// What writing gives is accepted, if it fits.
pub fn takes_written<S: WireSymbol>()
    ensures { TakesWritten S.Symbol.before S.WireSymbol.travel }
{}
