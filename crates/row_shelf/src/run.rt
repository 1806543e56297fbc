// What the shelf does, on the run of records that it is handed: the first `used` of them are its vertices. Functions of the
// run: the shelf's methods pass it on.
ghost use Rattle.std.specs.Prelude.{◌≡◌, ◌≤◌, map, length, take};
ghost use Rattle.ledger.specs.declared.Vertex.{Vertex};
ghost use Rattle.ledger.specs.Gather.{keep};
ghost use Rattle.ledger.specs.Laid.{First};
ghost use Rattle.memory.specs.Marks.{noted_vertex};
ghost use Rattle.memory.specs.Shelves.{marks_in};
ghost use Rattle.row_shelf.specs.Row.{RowAppends, row_capacity};

use ledger::Vertex;
use memory::marks::{is_marked, new_vertex};
use memory::reading::same_vertex;
use memory::records::capacity;
use memory::shelf::Full;
use memory::work::Place;
use symbols::Symbol;

// The lowest number of a vertex, by a search from the first on.
pub(crate) fn find<S: Symbol>(vertices: &[Vertex<S>], wanted: Vertex<S>) -> Option<u32>
    requires { length vertices.now ≤ 1000000 }
    ensures { First vertices.now wanted result }
{
    let i = vertices.iter().position(|v| same_vertex(*v, wanted))?;
    Some(i as u32 + 2)
}

// Writes the vertex past the used records, and says how many are used then; refused where there is no place.
pub(crate) fn append<S: Symbol>(
    run: &mut [Vertex<S>],
    used: u32,
    vertex: Vertex<S>,
) -> Result<u32, Full>
    requires { used ≤ row_capacity run.old }
    ensures { RowAppends used run.old vertex result run.new }
{
    if used >= capacity(run.len()) {
        return Err(Full);
    }
    run[used as usize] = vertex;
    Ok(used + 1)
}

// Moves the marked vertices to the front, their links renumbered from the places, and says how many there are. One such
// function a shelf: another record is written, and here no chain is made.
pub(crate) fn keep<S: Symbol>(run: &mut [Vertex<S>], used: u32, marks: &[Place]) -> u32
    requires used { used ≤ row_capacity run.old }
    requires marks { length marks.now ≡ used }
    ensures few { result ≤ used }
    ensures vertices { take result run.new ≡ map (noted_vertex marks.now) (keep (marks_in marks.now) (take used run.old)) }
{
    let mut to: u32 = 0;
    // By index: it reads and writes one run.
    for i in 0..used {
        if is_marked(marks, i + 2) {
            run[to as usize] = new_vertex(marks, run[i as usize]);
            to += 1;
        }
    }
    to
}
