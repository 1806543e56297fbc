// A shelf in a row: its vertices are the first records of a run that it is handed, and a search goes from the first on.
//
// A find costs a step for each vertex, so this shelf suits few vertices, or little memory: it takes no records beyond
// the vertices. To look, to append and to cut cost one step, and to gather costs a step for each vertex.
#![tactic(auto)]

ghost use Rattle.std.specs.Prelude.{◌≡◌, ◌≤◌, [], take};
ghost use Rattle.row_shelf.specs.Row.{row_bounds, row_capacity};

use ledger::Vertex;
use memory::records;
use memory::shelf::{Full, Shelf};
use memory::work::Place;
use symbols::Symbol;

mod run;

// The first `used` records are the vertices.
#[derive(Drop)]
pub struct RowShelf<'a, S> {
    run: &'a mut [Vertex<S>],
    used: u32,
    ghost within: { used ≤ row_capacity run.now },
}

impl<'a, S: Symbol> RowShelf<'a, S> {
    // An empty shelf over a run of records, whatever they hold.
    pub fn new(run: &'a mut [Vertex<S>]) -> RowShelf<'a, S>
        ensures held { result.run.now ≡ run.old }
        ensures capacity { row_capacity result.run.now ≡ row_capacity run.old }
        ensures vertices { take result.used result.run.now ≡ [] }
    {
        RowShelf { run, used: 0 }
    }

    // The records that hold vertices.
    fn vertices(&self) -> &[Vertex<S>]
        ensures { result.now ≡ take self.now.used self.now.run.now }
    {
        &self.run[..self.used as usize]
    }
}

impl<'a, S: Symbol> Shelf<S> for RowShelf<'a, S> {
    ghost vertices = { λ s. take s.used s.run.now };

    ghost capacity = { λ s. row_capacity s.run.now };

    ghost ready = { λ _. Unit {0} };

    ghost bounds = { λ s. row_bounds s.used s.run.now s.within };

    fn capacity(&self) -> u32 {
        records::capacity(self.run.len())
    }

    fn used(&self) -> u32 {
        self.used
    }

    fn look(&self, n: u32) -> Option<(S, u32, u32)> {
        records::look(self.vertices(), n)
    }

    fn find(&self, label: S, zero: u32, one: u32) -> Option<u32> {
        run::find(self.vertices(), Vertex { label, zero, one })
    }

    fn append(&mut self, label: S, zero: u32, one: u32) -> Result<u32, Full> {
        self.used = run::append(self.run, self.used, Vertex { label, zero, one })?;
        Ok(self.used + 1)
    }

    fn cut(&mut self, n: u32) {
        self.used = self.used.min(n);
    }

    fn gather(&mut self, marks: &mut [Place]) -> bool {
        if !records::number_vertices(self.vertices(), marks) {
            return false;
        }
        self.used = run::keep(self.run, self.used, marks);
        true
    }
}
