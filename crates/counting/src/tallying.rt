// How many codes a list has, and whether the empty code is one of them: one pass over the numbers up to the list's,
// each counted from its two links, which are lower.
ghost use Rattle.std.specs.Prelude.{◌≡◌, ℕ, ◌+◌, ◌<◌, length, slice_index_or};
ghost use Rattle.ledger.specs.Diagrams.{Good, Sound};
ghost use Rattle.ledger.specs.Ledger.{codes};
ghost use Rattle.ledger.specs.Ordered.{ordered};
ghost use Rattle.counting.specs.Tallies.{Counted, Tells, Tallied, held, vacant};

use memory::reading::read_vertex;
use memory::shelf::Shelf;
use memory::work::Place;
use symbols::Symbol;

// What is known of a list: how many codes it has, if fewer than 2^64, and whether the empty code is one of them.
#[derive(Clone, Copy)]
pub(crate) struct Tally {
    pub(crate) codes: Option<u64>,
    pub(crate) empty: bool,
}

// The place that keeps a tally: its state is 0 where the count is in it, and a plain number, as all that a place keeps.
impl From<Tally> for Place {
    ghost from_gives = { λ t p. held p ≡ t };

    fn from(tally: Tally) -> Place {
        Place {
            state: u32::from(tally.codes.is_none()),
            number: u32::from(tally.empty),
            count: tally.codes.unwrap_or(0),
            ..Place::default()
        }
    }
}

// The tally that a place keeps.
impl From<Place> for Tally {
    ghost from_gives = { λ p t. t ≡ held p };

    fn from(place: Place) -> Tally {
        Tally {
            codes: (place.state == 0).then_some(place.count),
            empty: place.number != 0,
        }
    }
}

// The tally in a list's place; past the places, that of a blank one.
pub(crate) fn tally_at(work: &[Place], n: u32) -> Tally
    ensures { result ≡ held (slice_index_or work.now n vacant) }
{
    match work.get(n as usize) {
        Some(place) => Tally::from(*place),
        None => Tally::from(Place::default()),
    }
}

// A sum of two counts.
fn total(first: Option<u64>, second: Option<u64>) -> Option<u64>
    ensures { (m n : ℕ) → Counted m first → Counted n second → Counted (m + n) result }
{
    first?.checked_add(second?)
}

// The tally of a list, from those of all lower numbers.
fn tally_of<S: Symbol, B: Shelf<S>>(shelf: &B, n: u32, work: &[Place]) -> Tally
    ensures { Sound S.Symbol.before (B.Shelf.vertices shelf.now) → Good (B.Shelf.vertices shelf.now) n → Tallied (B.Shelf.vertices shelf.now) n work.now → Tells (codes (B.Shelf.vertices shelf.now) n) result }
{
    let Some((_, zero, one)) = read_vertex(shelf, n) else {
        return Tally {
            codes: Some(u64::from(n)),
            empty: n == 1,
        };
    };
    let outer = tally_at(work, zero);
    let inner = tally_at(work, one);
    Tally {
        codes: total(outer.codes, inner.codes),
        empty: outer.empty,
    }
}

// Keeps the tally of each list up to this one.
pub(crate) fn tally_up_to<S: Symbol, B: Shelf<S>>(shelf: &B, list: u32, work: &mut [Place])
    requires { list < length work.old }
    ensures { Sound S.Symbol.before (B.Shelf.vertices shelf.now) → Good (B.Shelf.vertices shelf.now) list → Tallied (B.Shelf.vertices shelf.now) (list + 1) work.new }
{
    // By index: each tally is made from those in lower places of the run that it is written to.
    for n in 0..=list {
        work[n as usize] = Place::from(tally_of(shelf, n, work));
    }
}

// How many codes the list has; nothing from 2^64 on.
pub fn count<S: Symbol, B: Shelf<S>>(shelf: &B, list: u32, work: &mut [Place]) -> Option<u64>
    requires { list < length work.old }
    ensures { Sound S.Symbol.before (B.Shelf.vertices shelf.now) → Good (B.Shelf.vertices shelf.now) list → Counted (length (ordered (codes (B.Shelf.vertices shelf.now) list))) result }
{
    tally_up_to(shelf, list, work);
    tally_at(work, list).codes
}
