// Whether no two records of a dispatch are equal.
//
// The work space holds a table of buckets, as many as there are records: a bucket leads to its last record, and each
// record to the one before it there. So a record is compared with those of its bucket alone, which takes linear time in
// all where the buckets are even.
ghost use Rattle.std.specs.Prelude.{◌≡◌, ℕ, ◌+◌, ◌<◌, ◌≤◌, true, ◌↔◌, length, Some};
ghost use Rattle.std.specs.List.{slice_get};
ghost use Rattle.ledger.specs.Diagrams.{Different};
ghost use Rattle.receiving.specs.Tables.{Table, PutInFront};

use crate::records::Records;
use ledger::Vertex;
use memory::buckets::bucket;
use memory::reading::same_vertex;
use memory::work::Place;
use symbols::{Symbol, WireSymbol};

// Puts record k in front of a bucket. Links are indices and one more, 0 for none, since the memory is lent as it lies.
fn put_in_front(work: &mut [Place], b: usize, k: u32)
    requires bucket { b < length work.old }
    requires index { k < length work.old }
    requires few { k ≤ 1000000 }
    ensures { PutInFront work.old b k work.new }
{
    work[k as usize].other = work[b].list;
    work[b].list = k + 1;
}

impl<S: WireSymbol> Records<'_, S> {
    // Whether a vertex is one of the first k records, by a walk down its bucket.
    fn seen_before(&self, work: &[Place], k: u32, vertex: Vertex<S>) -> bool
        requires room { length self.now ≤ length work.now }
        requires index { k < length self.now }
        ensures { Table S.Symbol.scatter self.now (length self.now) k work.now → (result ≡ true) ↔ ((j : ℕ) × (j < k) × (slice_get self.now j ≡ Some vertex)) }
    {
        let mut link = work[bucket(vertex, self.count() as usize)].list.min(k);
        while let Some(j) = link.checked_sub(1) {
            if same_vertex(self.record(j), vertex) {
                return true;
            }
            link = work[j as usize].other.min(j);
        }
        false
    }

    // Whether no two records are equal.
    pub(crate) fn all_apart(&self, work: &mut [Place]) -> bool
        requires { length self.now ≤ length work.old }
        ensures { (result ≡ true) ↔ Different self.now }
    {
        let count = self.count();
        work[..count as usize].fill(Place::default());
        // By number: a record is put in the table, and found there, by its number.
        for k in 0..count {
            let vertex = self.record(k);
            if self.seen_before(work, k, vertex) {
                return false;
            }
            put_in_front(work, bucket(vertex, count as usize), k);
        }
        true
    }
}
