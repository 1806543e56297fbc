// Lists are plain finite sets of codes, and what is asked of them is what it would be of sets.
ghost use Rattle.ledger.specs.PlainSets.{AreSets, TakenApart, Joining, Changing, Ordering};

use symbols::Symbol;

// Two lists with the same codes are one; every finite collection of codes is a list; list 0 has no code, and list 1 the
// empty code alone.
pub fn are_sets<S: Symbol>()
    ensures { AreSets S.Symbol.before }
{}

// Every other list has a head, the earliest first symbol of its codes, an inner list and an outer list.
pub fn taken_apart<S: Symbol>()
    ensures { TakenApart S.Symbol.before }
{}

// The test for a code is membership, and a join has the codes that its rule takes.
pub fn joining<S: Symbol>()
    ensures { Joining S.Symbol.before }
{}

// A list with a code, a list without it, and what remains of the codes that begin with it.
pub fn changing<S: Symbol>()
    ensures { Changing S.Symbol.before }
{}

// The codes of a list in their order: the count, and the code with k before it.
pub fn ordering<S: Symbol>()
    ensures { Ordering S.Symbol.before }
{}
