// The turns of a walk over pairs: a pair is met, or a number comes back to the frame that waits for it.
//
// A turn asks the recall table once at most and reads two vertices. It reads links through `read_vertex`, so pairs only
// get lower, and the walk ends and stays within its frames on any memory.
ghost use Rattle.std.specs.Prelude.{◌≡◌, ◌+◌, ◌<◌, ◌≤◌, [], ◌∷◌, IfOk};
ghost use Rattle.joining.specs.Rules.{number_of};
ghost use Rattle.joining.specs.Pairs.{sum};
ghost use Rattle.joining.specs.Frames.{waiting};
ghost use Rattle.joining.specs.Walks.{Fits, Nearer, Goes, Turns, Coupled, Walks};
ghost use Rattle.joining.specs.declared.turns.Turn.TheVariants.{Meet, Answer};

use crate::frames::Frame;
use crate::pairs::{Pair, question, shortcut, take_apart};
use crate::rule::Rule;
use memory::recall::RecallTable;
use memory::shelf::{Full, Shelf};
use memory::stack::Stack;
use memory::work::Place;
use std::marker::PhantomData;
use symbols::Symbol;

// A pair is met, or a number comes back.
#[derive(Clone, Copy)]
pub enum Turn {
    Meet(Pair),
    Answer(u32),
}

// A walk over pairs: the shelf and the recall table, the rule, and the frames that wait.
#[derive(Drop)]
pub struct Walk<'s, 'r, 'w, S, B, R> {
    pub shelf: &'s mut B,
    pub recall: &'r mut R,
    pub rule: Rule,
    pub stack: Stack<'w>,
    // what the shelf's labels are
    pub labels: PhantomData<S>,
}

// The number of the vertex with these links, found or appended; the zero link's where the one link is 0.
fn couple<S: Symbol, B: Shelf<S>>(shelf: &mut B, label: S, zero: u32, one: u32) -> Result<u32, Full>
    ensures answer { B.Shelf.ready shelf.old → Coupled (B.Shelf.capacity shelf.old) (B.Shelf.vertices shelf.old) label zero one result (B.Shelf.vertices shelf.new) }
    ensures ready { B.Shelf.ready shelf.old → B.Shelf.ready shelf.new }
    ensures size { B.Shelf.capacity shelf.new ≡ B.Shelf.capacity shelf.old }
{
    if one == 0 {
        return Ok(zero);
    }
    shelf.find_or_append(label, zero, one)
}

impl<'s, 'r, 'w, S: Symbol, B: Shelf<S>, R: RecallTable> Walk<'s, 'r, 'w, S, B, R> {
    // A turn at a pair: its number, or a frame for it and its outer pair.
    fn meet(&mut self, pair: Pair) -> Turn
        requires { Fits self.old.stack.room (waiting self.old.stack) (Meet pair) }
        ensures same { self.new ≡ record self.old { stack = self.new.stack } }
        ensures nearer { Nearer self.old.stack.room (waiting self.old.stack) (Meet pair) self.new.stack.room (waiting self.new.stack) result }
        ensures goes { Goes S.Symbol.before (number_of self.old.rule) (B.Shelf.vertices self.old.shelf.now) (R.RecallTable.table self.old.recall.now) (waiting self.old.stack) (Meet pair) (waiting self.new.stack) result }
    {
        let asked = question(self.rule, pair);
        if let Some(n) = shortcut(self.rule, pair).or_else(|| self.recall.recall(asked)) {
            return Turn::Answer(n);
        }
        // two numbers that are neither 0 nor equal can be taken apart, unless one of them is no good number
        let Some(split) = take_apart(self.shelf, pair) else {
            return Turn::Answer(0);
        };
        self.stack.push(Place::from(Frame { pair, outer: None }));
        Turn::Meet(split.outer)
    }

    // A turn at a number that comes back to a frame just taken off: on to its inner pair, or the frame's own number.
    fn answer(&mut self, frame: Frame, n: u32) -> Result<Turn, Full>
        requires { Fits self.old.stack.room (frame ∷ waiting self.old.stack) (Answer n) }
        ensures same_shelf { self.new.shelf.ghost_name ≡ self.old.shelf.ghost_name }
        ensures same_recall { self.new.recall.ghost_name ≡ self.old.recall.ghost_name }
        ensures same_rule { self.new.rule ≡ self.old.rule }
        ensures nearer { IfOk result (λ next. Nearer self.old.stack.room (frame ∷ waiting self.old.stack) (Answer n) self.new.stack.room (waiting self.new.stack) next) }
        ensures turns { B.Shelf.ready self.old.shelf.now → Turns S.Symbol.before (number_of self.old.rule) (B.Shelf.capacity self.old.shelf.now) (B.Shelf.vertices self.old.shelf.now) (R.RecallTable.table self.old.recall.now) (frame ∷ waiting self.old.stack) (Answer n)
            (B.Shelf.vertices self.new.shelf.now) (R.RecallTable.table self.new.recall.now) (waiting self.new.stack) result }
        ensures ready { B.Shelf.ready self.old.shelf.now → B.Shelf.ready self.new.shelf.now }
        ensures size { B.Shelf.capacity self.new.shelf.now ≡ B.Shelf.capacity self.old.shelf.now }
    {
        // a pair that waits was taken apart once, and vertices do not change: no frame of a sound shelf is let go here
        let Some(split) = take_apart(self.shelf, frame.pair) else {
            return Ok(Turn::Answer(0));
        };
        match frame.outer {
            None => {
                self.stack.push(Place::from(Frame {
                    pair: frame.pair,
                    outer: Some(n),
                }));
                Ok(Turn::Meet(split.inner))
            }
            Some(zero) => {
                let number = couple(self.shelf, split.label, zero, n)?;
                self.recall.tell(question(self.rule, frame.pair), number);
                Ok(Turn::Answer(number))
            }
        }
    }

    // Walks a pair to its end: its list is laid down, or does not fit, and part of it then stands after the old vertices.
    pub fn run(&mut self, pair: Pair) -> Result<u32, Full>
        requires empty { self.old.stack.frames ≡ [] }
        requires room { sum pair ≤ self.old.stack.room }
        ensures same_shelf { self.new.shelf.ghost_name ≡ self.old.shelf.ghost_name }
        ensures same_recall { self.new.recall.ghost_name ≡ self.old.recall.ghost_name }
        ensures answer { B.Shelf.ready self.old.shelf.now → Walks S.Symbol.before (B.Shelf.capacity self.old.shelf.now) (number_of self.old.rule) pair
            (B.Shelf.vertices self.old.shelf.now) (R.RecallTable.table self.old.recall.now) result (B.Shelf.vertices self.new.shelf.now) (R.RecallTable.table self.new.recall.now) }
        ensures ready { B.Shelf.ready self.old.shelf.now → B.Shelf.ready self.new.shelf.now }
        ensures size { B.Shelf.capacity self.new.shelf.now ≡ B.Shelf.capacity self.old.shelf.now }
    {
        let mut turn = Turn::Meet(pair);
        // A turn is a value: what waits lies in lent places, which can hold no closure.
        loop {
            turn = match turn {
                Turn::Meet(pair) => self.meet(pair),
                Turn::Answer(n) => {
                    let Some(place) = self.stack.pop() else {
                        return Ok(n);
                    };
                    self.answer(Frame::from(place), n)?
                }
            };
        }
    }
}
