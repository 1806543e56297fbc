// Whether the vertices of a dispatch stand in the order in which the root's list is laid down: a walk from the root, the
// zero link, the one link, then itself, has to come by them as 2, 3, 4 and so on.
//
// No vertex is marked: once the first d vertices were passed, a lower number is one of them. So each record is read once,
// and what waits stands in the work space, at most two places for each number.
ghost use Rattle.std.specs.Prelude.{◌≡◌, ℕ, ◌+◌, ◌*◌, ◌≤◌, ◌↔◌, length, Some};
ghost use Rattle.ledger.specs.Visits.{Visits};
ghost use Rattle.receiving.specs.Walks.{task_of, place_of, Reaches, Fits, Leads, ComesDown};

use crate::records::Records;
use memory::stack::Stack;
use memory::work::Place;
use symbols::{Symbol, WireSymbol};

// A number is to be visited; or its links were visited, and now it has to be the next.
#[derive(Clone, Copy)]
enum Task {
    Visit(u32),
    Close(u32),
}

impl From<Place> for Task {
    ghost from_gives = { λ place task. task ≡ task_of place };

    fn from(place: Place) -> Task {
        if place.state == 0 {
            Task::Visit(place.list)
        } else {
            Task::Close(place.list)
        }
    }
}

impl From<Task> for Place {
    ghost from_gives = { λ task place. place ≡ place_of task };

    fn from(task: Task) -> Place {
        // Which task it is stands as a plain number, as all that a place keeps.
        let (state, list) = match task {
            Task::Visit(n) => (0, n),
            Task::Close(n) => (1, n),
        };
        Place {
            state,
            list,
            ..Place::default()
        }
    }
}

impl<S: WireSymbol> Records<'_, S> {
    // Does a task after so many vertices were passed, and answers how many were passed then; nothing, where the vertices
    // do not stand in order.
    fn do_task(&self, task: Task, passed: u32, stack: &mut Stack) -> Option<u32>
        requires reaches { Reaches stack.old.room (length stack.old.frames) task }
        requires fits { Fits stack.old.room stack.old.frames }
        ensures down { ComesDown stack.old.room task stack.old.frames result stack.new.frames }
        ensures leads { (k : ℕ) → Leads self.now k task passed stack.old.frames result stack.new.frames }
        ensures room { stack.new.room ≡ stack.old.room }
    {
        let next = u64::from(passed) + 2;
        // A task is a value: what waits lies in lent places, which can hold no closure.
        match task {
            Task::Close(n) if u64::from(n) == next => Some(passed + 1),
            Task::Close(_) => None,
            Task::Visit(n) if u64::from(n) < next => Some(passed),
            Task::Visit(n) => {
                let vertex = self.vertex(n)?;
                stack.push(Task::Close(n).into());
                stack.push(Task::Visit(vertex.one).into());
                stack.push(Task::Visit(vertex.zero).into());
                Some(passed)
            }
        }
    }

    // How many vertices the walk from the root comes by, in their order; nothing, where they do not stand in order.
    pub(crate) fn passed_from(&self, root: u32, work: &mut [Place]) -> Option<u32>
        requires { 2 * root + 1 ≤ length work.old }
        ensures { (k : ℕ) → (result ≡ Some k) ↔ Visits self.now 0 root k }
    {
        let mut stack = Stack::new(work);
        stack.push(Task::Visit(root).into());
        let mut passed = 0;
        while let Some(place) = stack.pop() {
            passed = self.do_task(Task::from(place), passed, &mut stack)?;
        }
        Some(passed)
    }
}
