// Joins of two lists by a rule, laid down.
//
// A join walks over pairs of list numbers. What it appends is what laying the result down appends, in that order, so the
// shelf is full exactly where the ledger says so. A pair that the recall table knows, and one that the rule settles, is
// not walked: with a table that keeps all, a pair is walked once at most. The work space needs a place for each frame,
// and there are never more frames than the sum of the two numbers.
#![tactic(auto)]

ghost use Rattle.std.specs.Prelude.{◌≡◌, ◌+◌, ◌≤◌, true, length, is_err, None};
ghost use Rattle.memory.specs.declared.recall.Question.{Question};
ghost use Rattle.joining.specs.Rules.{number_of};
ghost use Rattle.joining.specs.Recalled.{Joins};

use crate::pairs::Pair;
use crate::rule::Rule;
use crate::turns::Walk;
use memory::recall::RecallTable;
use memory::shelf::{Full, Shelf};
use memory::stack::Stack;
use memory::work::Place;
use std::marker::PhantomData;
use symbols::Symbol;

mod frames;
mod pairs;
pub mod rule;
mod turns;

// Lays down the join of two lists by a rule, and answers its number. Refused where it does not fit: the vertices are
// then as they were, and the recall table is empty.
pub fn join<S: Symbol, B: Shelf<S>, R: RecallTable>(
    shelf: &mut B,
    recall: &mut R,
    rule: Rule,
    first: u32,
    second: u32,
    work: &mut [Place],
) -> Result<u32, Full>
    requires { first + second ≤ length work.old }
    ensures answer { B.Shelf.ready shelf.old → Joins S.Symbol.before (B.Shelf.capacity shelf.old) (number_of rule) first second
        (B.Shelf.vertices shelf.old) (R.RecallTable.table recall.old) result (B.Shelf.vertices shelf.new) (R.RecallTable.table recall.new) }
    ensures refused { is_err result ≡ true → (q : Question) → R.RecallTable.table recall.new q ≡ None }
    ensures ready { B.Shelf.ready shelf.old → B.Shelf.ready shelf.new }
    ensures size { B.Shelf.capacity shelf.new ≡ B.Shelf.capacity shelf.old }
{
    let start = shelf.used();
    let stack = Stack::new(work);
    let mut walk: Walk<S, B, R> = Walk {
        shelf,
        recall,
        rule,
        stack,
        labels: PhantomData,
    };
    let joined = walk.run(Pair { first, second });
    let Walk { shelf, recall, .. } = walk;
    if joined.is_err() {
        shelf.cut(start);
        recall.forget();
    }
    joined
}
