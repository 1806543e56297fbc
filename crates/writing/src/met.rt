// The vertices that a walk has met, in their order, and where each stands in it. Place k has the number of the k-th vertex
// as its `list`; the place of vertex n, n - 2, has where it stands as its `number`. What lay there before the walk is
// never trusted: a vertex is met only if the two point at each other.
ghost use Rattle.std.specs.Prelude.{◌≡◌, ◌+◌, ◌<◌, ◌≤◌, length};
ghost use Rattle.writing.specs.Met.{Sparse, Stands, MetOrNot, NewLink, with_met};

use memory::work::Place;

// The places of all vertices, and how many vertices are met.
#[derive(Clone, Copy)]
pub(crate) struct Seen<'a> {
    pub(crate) places: &'a [Place],
    pub(crate) met: u32,
    ghost few: { met ≤ length places.now },
    ghost short: { length places.now ≤ 1000000 },
    ghost sparse: { Sparse places.now met },
}

impl Seen<'_> {
    // Where a vertex stands in the order; nothing if it is not met.
    fn find(&self, n: u32) -> Option<u32>
        requires { (2 ≤ n) × (n ≤ length self.now.places.now + 1) }
        ensures { Stands self.now.places.now self.now.met n result }
    {
        let k = self.places[(n - 2) as usize].number;
        (k < self.met && self.places[k as usize].list == n).then_some(k)
    }

    // Whether a link is a vertex that is not met yet.
    pub(crate) fn is_unmet(&self, link: u32) -> bool
        requires { link ≤ length self.now.places.now + 1 }
        ensures { MetOrNot self.now.places.now self.now.met link result }
    {
        link >= 2 && self.find(link).is_none()
    }

    // A link's number in the dispatch: terminals stay, and the vertices that are met are numbered from 2 in their order. Not as
    // memory's `new_link`, which trusts every place.
    pub(crate) fn new_link(&self, link: u32) -> u32
        requires { link ≤ length self.now.places.now + 1 }
        ensures { NewLink self.now.places.now self.now.met link result }
    {
        if link < 2 {
            return link;
        }
        // By cases: in a closure the sum has no bound.
        match self.find(link) {
            Some(k) => k + 2,
            None => 0,
        }
    }
}

// The vertex becomes the next in the order.
pub(crate) fn meet(seen: &mut [Place], met: u32, n: u32)
    requires few { met < length seen.old }
    requires vertex { (2 ≤ n) × (n ≤ length seen.old + 1) }
    ensures { seen.new ≡ with_met seen.old met n }
{
    seen[met as usize].list = n;
    seen[(n - 2) as usize].number = met;
}
