// Reading a vertex so that every walk over links ends, whatever lies in memory; and telling vertices apart.
ghost use Rattle.std.specs.Prelude.{◌≡◌, ℕ, ◌+◌, ◌<◌, ◌≤◌, true, ◌↔◌};
ghost use Rattle.std.specs.Option.{option_map};
ghost use Rattle.ledger.specs.Diagrams.{look, parts, Formed};
ghost use Rattle.memory.specs.Shelves.{LinksBelow};

use crate::shelf::Shelf;
use ledger::Vertex;
use symbols::{Symbol, same};

// The label and the links of a number, the links held below the number itself: in a formed row they are below it, and
// nothing is held back.
pub fn read_vertex<S: Symbol, B: Shelf<S>>(shelf: &B, n: u32) -> Option<(S, u32, u32)>
    ensures below { LinksBelow n result }
    ensures value { Formed S.Symbol.before (B.Shelf.vertices shelf.now) → result ≡ option_map parts (look (B.Shelf.vertices shelf.now) n) }
{
    let (label, zero, one) = shelf.look(n)?;
    let top = n.saturating_sub(1);
    Some((label, zero.min(top), one.min(top)))
}

// Whether two vertices are equal, by hand, since a symbol has an order and no `==`. The links are compared first: they differ
// most often.
pub fn same_vertex<S: Symbol>(v: Vertex<S>, w: Vertex<S>) -> bool
    ensures { (result ≡ true) ↔ (v ≡ w) }
{
    v.zero == w.zero && v.one == w.one && same(v.label, w.label)
}
