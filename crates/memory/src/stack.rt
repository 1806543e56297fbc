// A stack of places in a lent work space.
ghost use Rattle.std.specs.Prelude.{◌≡◌, ◌<◌, [], ◌∷◌, length, None, MatchOption};

use crate::work::Place;
use std::marker::Model;

// The first `height` places are on the stack, the last of them on top.
#[derive(Drop)]
pub struct Stack<'a> {
    places: &'a mut [Place],
    height: usize,
}

impl<'a> Model for Stack<'a> {
    ghost use Rattle.std.specs.Prelude.{◌≤◌, length};
    ghost use Rattle.memory.specs.Stacked.{Stacked, stacked};

    ghost Value = { Stacked };

    ghost view = { λ s. record { frames = stacked s.places.now s.height; room = length s.places.now } };

    ghost invariant = { λ s. s.height ≤ length s.places.now };
}

impl<'a> Stack<'a> {
    // No place is on it yet.
    pub fn new(places: &'a mut [Place]) -> Stack<'a>
        ensures frames { result.frames ≡ [] }
        ensures room { result.room ≡ length places.entry.now }
    {
        Stack { places, height: 0 }
    }

    pub fn push(&mut self, place: Place)
        requires { length self.old.frames < self.old.room }
        ensures frames { self.new.frames ≡ place ∷ self.old.frames }
        ensures room { self.new.room ≡ self.old.room }
    {
        self.places[self.height] = place;
        self.height += 1;
    }

    // Takes the top place off, or finds none.
    pub fn pop(&mut self) -> Option<Place>
        ensures frames { MatchOption result (self.old.frames ≡ []) (λ place. self.old.frames ≡ place ∷ self.new.frames) }
        ensures none { result ≡ None → self.new.frames ≡ [] }
        ensures room { self.new.room ≡ self.old.room }
    {
        if self.height == 0 {
            return None;
        }
        self.height -= 1;
        Some(self.places[self.height])
    }
}
