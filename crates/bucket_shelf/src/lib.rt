// A shelf over chains: one record a vertex, one head a bucket. A vertex's bucket is picked by its label and its links, so
// a search walks one short chain.
//
// Promise: any records and any heads will do, whatever lies in them; from the first cut to 0 on, the chains fit the
// vertices. Cost: a look is one step; a find or an append is a chain's length, a few steps while there are about as many
// heads as vertices; a cut is what it cuts, but to 0 it is the heads; to gather is the vertices and the heads.
#![tactic(auto)]

ghost use Rattle.std.specs.Prelude.{◌≡◌, ◌<◌, ◌≤◌, [], length, take, MatchOption};
ghost use Rattle.ledger.specs.declared.Vertex.{Vertex};
ghost use Rattle.memory.specs.Buckets.{bucket};
ghost use Rattle.memory.specs.Shelves.{Appends};
ghost use Rattle.bucket_shelf.specs.Chains.{room, room_bounds, vertices_in, Chained};

use ledger::Vertex;
use memory::buckets::bucket;
use memory::records::{self, Record};
use memory::shelf::{Full, Shelf};
use memory::work::Place;
use symbols::Symbol;

mod chain;

// A vertex in its bucket's chain: `next` is one more than the index of the next lower vertex of the bucket, or 0: a plain
// number, as the heads are, since the memory is lent as it lies.
#[derive(Clone, Copy)]
pub struct Entry<S> {
    pub vertex: Vertex<S>,
    pub next: u32,
}

impl<S: Symbol> Record<S> for Entry<S> {
    ghost vertex = { λ e. e.vertex };

    fn vertex(self) -> Vertex<S> {
        self.vertex
    }
}

// The first `used` records hold the vertices.
#[derive(Drop)]
pub struct BucketShelf<'a, S> {
    records: &'a mut [Entry<S>],
    heads: &'a mut [u32],
    used: u32,
    ghost within: { used ≤ room records.now heads.now },
}

impl<'a, S: Symbol> BucketShelf<'a, S> {
    // An empty shelf over this memory, whatever it holds; a cut to 0 makes it ready.
    pub fn new(records: &'a mut [Entry<S>], heads: &'a mut [u32]) -> BucketShelf<'a, S>
        ensures vertices { take result.used (vertices_in result.records.now) ≡ [] }
        ensures records { result.records.now ≡ records.old }
        ensures heads { result.heads.now ≡ heads.old }
    {
        BucketShelf {
            records,
            heads,
            used: 0,
        }
    }

    // The records that hold vertices.
    fn entries(&self) -> &[Entry<S>]
        ensures { result.now ≡ take self.now.used self.now.records.now }
    {
        &self.records[..self.used as usize]
    }

    // The bucket of a vertex; none without heads.
    fn bucket_of(&self, vertex: Vertex<S>) -> Option<usize>
        ensures { MatchOption result (length self.now.heads.now ≡ 0) (λ at. (at < length self.now.heads.now) × (at ≡ bucket S.Symbol.scatter (length self.now.heads.now) vertex)) }
    {
        if self.heads.is_empty() {
            return None;
        }
        Some(bucket(vertex, self.heads.len()))
    }

    // One vertex more, in its bucket `at`.
    fn push(&mut self, at: usize, vertex: Vertex<S>) -> Result<u32, Full>
        requires there { at < length self.old.heads.now }
        requires bucket { at ≡ bucket S.Symbol.scatter (length self.old.heads.now) vertex }
        ensures answer { Appends (room self.old.records.now self.old.heads.now) (take self.old.used (vertices_in self.old.records.now)) vertex result (take self.new.used (vertices_in self.new.records.now)) }
        ensures ready { Chained S.Symbol.scatter self.old.records.now self.old.heads.now self.old.used → Chained S.Symbol.scatter self.new.records.now self.new.heads.now self.new.used }
        ensures size { room self.new.records.now self.new.heads.now ≡ room self.old.records.now self.old.heads.now }
    {
        if self.used >= self.capacity() {
            return Err(Full);
        }
        chain::link(self.records, self.heads, self.used, at, vertex);
        self.used += 1;
        Ok(self.used + 1)
    }
}

impl<'a, S: Symbol> Shelf<S> for BucketShelf<'a, S> {
    ghost vertices = { λ s. take s.used (vertices_in s.records.now) };

    ghost capacity = { λ s. room s.records.now s.heads.now };

    ghost ready = { λ s. Chained S.Symbol.scatter s.records.now s.heads.now s.used };

    ghost bounds = { λ s. room_bounds s.used s.records.now s.heads.now s.within };

    fn capacity(&self) -> u32 {
        if self.heads.is_empty() {
            return 0;
        }
        records::capacity(self.records.len())
    }

    fn used(&self) -> u32 {
        self.used
    }

    fn look(&self, n: u32) -> Option<(S, u32, u32)> {
        records::look(self.entries(), n)
    }

    fn find(&self, label: S, zero: u32, one: u32) -> Option<u32> {
        let vertex = Vertex { label, zero, one };
        let at = self.bucket_of(vertex)?;
        self.find_in(at, vertex)
    }

    fn append(&mut self, label: S, zero: u32, one: u32) -> Result<u32, Full> {
        let vertex = Vertex { label, zero, one };
        let at = self.bucket_of(vertex).ok_or(Full)?;
        self.push(at, vertex)
    }

    // The bucket is computed once, for the search and for what follows it.
    fn find_or_append(&mut self, label: S, zero: u32, one: u32) -> Result<u32, Full> {
        let vertex = Vertex { label, zero, one };
        let at = self.bucket_of(vertex).ok_or(Full)?;
        // By cases: as `map_or_else`, both closures would need the shelf.
        match self.find_in(at, vertex) {
            Some(n) => Ok(n),
            None => self.push(at, vertex),
        }
    }

    // To leave no vertex clears every head, whatever lay there: so a shelf begins.
    fn cut(&mut self, n: u32) {
        if n == 0 {
            self.heads.fill(0);
        } else {
            // A reference of its own: of a field lent on as `&[_]` nothing is told after.
            let records = &mut *self.records;
            chain::unlink(records, self.heads, self.used, n);
        }
        self.used = self.used.min(n);
    }

    fn gather(&mut self, marks: &mut [Place]) -> bool {
        if !records::number_vertices(self.entries(), marks) {
            return false;
        }
        self.used = chain::keep(self.records, self.heads, self.used, marks);
        true
    }
}
