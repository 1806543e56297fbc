// Chains over records and heads. Each walk ends on any memory: a step goes down, whatever `next` says.
ghost use Rattle.std.specs.Prelude.{◌≡◌, ◌+◌, ◌<◌, ◌≤◌, min, map, length, take, slice_set};
ghost use Rattle.ledger.specs.Gather.{keep};
ghost use Rattle.ledger.specs.Laid.{First};
ghost use Rattle.memory.specs.Buckets.{bucket};
ghost use Rattle.memory.specs.Marks.{noted_vertex};
ghost use Rattle.memory.specs.Shelves.{marks_in};
ghost use Rattle.bucket_shelf.specs.Chains.{vertices_in, room, Chained};

use crate::{BucketShelf, Entry};
use ledger::Vertex;
use memory::buckets::bucket;
use memory::marks::{is_marked, new_vertex};
use memory::reading::same_vertex;
use memory::work::Place;
use symbols::Symbol;

impl<S: Symbol> BucketShelf<'_, S> {
    // The lowest number of a vertex, by a walk down the chain of its bucket `at`. Equal vertices may stand in it more
    // than once, so the walk goes to the end.
    pub(crate) fn find_in(&self, at: usize, wanted: Vertex<S>) -> Option<u32>
        requires there { at < length self.now.heads.now }
        requires bucket { at ≡ bucket S.Symbol.scatter (length self.now.heads.now) wanted }
        ensures { Chained S.Symbol.scatter self.now.records.now self.now.heads.now self.now.used → First (take self.now.used (vertices_in self.now.records.now)) wanted result }
    {
        let mut found = None;
        let mut top = self.heads[at].min(self.used);
        // No count: each step goes where `next` leads.
        while top > 0 {
            let entry = self.records[(top - 1) as usize];
            if same_vertex(entry.vertex, wanted) {
                found = Some(top + 1);
            }
            top = entry.next.min(top - 1);
        }
        found
    }
}

// One vertex more, at index `i`, at the top of its bucket's chain.
pub(crate) fn link<S: Symbol>(
    records: &mut [Entry<S>],
    heads: &mut [u32],
    i: u32,
    at: usize,
    vertex: Vertex<S>,
)
    requires index { i < room records.old heads.old }
    requires there { at < length heads.old }
    requires bucket { at ≡ bucket S.Symbol.scatter (length heads.old) vertex }
    ensures vertices { vertices_in records.new ≡ slice_set (vertices_in records.old) i vertex }
    ensures ready { Chained S.Symbol.scatter records.old heads.old i → Chained S.Symbol.scatter records.new heads.new (i + 1) }
{
    let next = heads[at];
    records[i as usize] = Entry { vertex, next };
    heads[at] = i + 1;
}

// Takes the vertices from index `n` on out of their chains, the last first: each is then at the top of its chain.
pub(crate) fn unlink<S: Symbol>(records: &[Entry<S>], heads: &mut [u32], used: u32, n: u32)
    requires { used ≤ room records.now heads.old }
    ensures { Chained S.Symbol.scatter records.now heads.old used → Chained S.Symbol.scatter records.now heads.new (min n used) }
{
    for entry in records[n.min(used) as usize..used as usize].iter().rev() {
        let at = bucket(entry.vertex, heads.len());
        heads[at] = entry.next;
    }
}

// Moves the marked vertices to the front, in chains that begin anew, and says how many there are.
pub(crate) fn keep<S: Symbol>(
    records: &mut [Entry<S>],
    heads: &mut [u32],
    used: u32,
    marks: &[Place],
) -> u32
    requires used { used ≤ room records.old heads.old }
    requires marks { length marks.now ≡ used }
    ensures few { result ≤ used }
    ensures vertices { take result (vertices_in records.new) ≡ map (noted_vertex marks.now) (keep (marks_in marks.now) (take used (vertices_in records.old))) }
    ensures ready { Chained S.Symbol.scatter records.new heads.new result }
{
    heads.fill(0);
    let mut to: u32 = 0;
    // By index: it reads and writes one run.
    for i in 0..used {
        if is_marked(marks, i + 2) {
            let vertex = records[i as usize].vertex;
            let kept = new_vertex(marks, vertex);
            let at = bucket(kept, heads.len());
            link(records, heads, to, at, kept);
            to += 1;
        }
    }
    to
}
