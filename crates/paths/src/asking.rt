// What a code leads to. One read of a vertex for each step of its path; no work space. On any memory each walk ends,
// since `read_vertex` holds links below the vertex's own number.
ghost use Rattle.std.specs.Prelude.{◌≡◌, [], ◌∷◌};
ghost use Rattle.ledger.specs.Ledger.{codes};
ghost use Rattle.ledger.specs.Operations.{has, under};
ghost use Rattle.paths.specs.Asked.{Leads, Numbers, WhenGood};

use memory::reading::read_vertex;
use memory::shelf::Shelf;
use symbols::Symbol;

// What remains after one symbol: zero links lead past earlier labels, and the one link of the symbol's vertex on.
fn after_symbol<S: Symbol, B: Shelf<S>>(shelf: &B, list: u32, symbol: S) -> u32
    ensures { WhenGood S.Symbol.before (B.Shelf.vertices shelf.now) list (λ t. Leads S.Symbol.before (B.Shelf.vertices shelf.now) t (symbol ∷ []) result) }
{
    let mut at = list;
    while let Some((label, zero, one)) = read_vertex(shelf, at) {
        if symbol.before(label) {
            return 0;
        }
        if !label.before(symbol) {
            return one;
        }
        at = zero;
    }
    0
}

// The list of what remains of the codes that begin with this one, this one taken off: where the code's path ends. The
// code is in the list if the empty code is in what remains.
pub fn under<S: Symbol, B: Shelf<S>>(shelf: &B, list: u32, code: &[S]) -> u32
    ensures value { WhenGood S.Symbol.before (B.Shelf.vertices shelf.now) list (λ t. Numbers S.Symbol.before (B.Shelf.vertices shelf.now) (under S.Symbol.before t code.now) result) }
    ensures member { WhenGood S.Symbol.before (B.Shelf.vertices shelf.now) list (λ t. has S.Symbol.before (codes (B.Shelf.vertices shelf.now) result) [] ≡ has S.Symbol.before t code.now) }
{
    let mut reached = list;
    for symbol in code {
        reached = after_symbol(shelf, reached, *symbol);
    }
    reached
}

// Whether the empty code is in a list: whether its zero links end at terminal 1.
fn has_empty<S: Symbol, B: Shelf<S>>(shelf: &B, list: u32) -> bool
    ensures { WhenGood S.Symbol.before (B.Shelf.vertices shelf.now) list (λ t. result ≡ has S.Symbol.before t []) }
{
    let mut at = list;
    while let Some((_, zero, _)) = read_vertex(shelf, at) {
        at = zero;
    }
    at == 1
}

// Whether the code is in the list.
pub fn holds<S: Symbol, B: Shelf<S>>(shelf: &B, list: u32, code: &[S]) -> bool
    ensures value { WhenGood S.Symbol.before (B.Shelf.vertices shelf.now) list (λ t. result ≡ has S.Symbol.before t code.now) }
{
    has_empty(shelf, under(shelf, list, code))
}
