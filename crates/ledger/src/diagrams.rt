// In sound vertices a list is its number, and nothing smaller draws it.
ghost use Rattle.ledger.specs.Statements.{Canonical, ReadOff, Minimal, Attained};

use symbols::Symbol;

// Two good numbers are equal exactly when they have the same codes.
pub fn canonical<S: Symbol>()
    ensures { Canonical S.Symbol.before }
{}

// The codes read off the vertices are those of the number's list.
pub fn read_off<S: Symbol>()
    ensures { ReadOff S.Symbol.before }
{}

// No diagram of a good number's codes has fewer vertices than are reached from that number.
pub fn minimal<S: Symbol>()
    ensures { Minimal S.Symbol.before }
{}

// What is written of the list is such a diagram, with just that many vertices.
pub fn attained<S: Symbol>()
    ensures { Attained S.Symbol.before }
{}
