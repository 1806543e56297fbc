// Two recall tables: one that keeps nothing, and one in a run of slots that it is handed.
//
// Every call of either takes constant time, `forget` too, and the slots may hold anything at the start: no call ever
// goes over them all. The table counts the turns in which it filled a slot. A full slot has its turn, and the record at
// that turn's place has a note of the slot's number; what lay in memory before is never an entry, since the notes of
// the turns so far are the table's own. With no turns there is no entry, so to forget is to count from 0 again.
#![tactic(auto)]

ghost use Rattle.std.specs.Prelude.{◌≡◌, None};
ghost use Rattle.memory.specs.declared.recall.Question.{Question};
ghost use Rattle.memory.specs.Tables.{Told};
ghost use Rattle.recall_tables.specs.Finite.{held_finite, none_finite};
ghost use Rattle.recall_tables.specs.Slots.{held, Recalls, Spares};

use memory::recall::{Question, RecallTable};

mod slots;

// The table that keeps nothing.
#[derive(Clone, Copy)]
pub struct Blank;

impl RecallTable for Blank {
    ghost table = { λ _ _. None };

    ghost finite = { λ _. none_finite };

    fn recall(&self, question: Question) -> Option<u32> {
        None
    }

    fn tell(&mut self, question: Question, answer: u32) {}

    fn forget(&mut self) {}
}

// One slot, and one note: the entry with the turn in which it came, and beside it the number of the slot that was
// filled in the turn of this record's own place. Plain numbers, since the memory is lent as it lies.
#[derive(Clone, Copy, Default)]
pub struct Slot {
    pub question: Question,
    pub answer: u32,
    pub turn: u32,
    pub filled: u32,
}

// A table in slots. Each question has one slot, where a newer entry takes the place of an older.
#[derive(Drop)]
pub struct SlotTable<'a> {
    slots: &'a mut [Slot],
    turns: u32,
}

impl<'a> SlotTable<'a> {
    // An empty table in these slots, whatever they hold.
    pub fn new(slots: &'a mut [Slot]) -> SlotTable<'a>
        ensures memory { result.slots.now ≡ slots.old }
        ensures empty { (q : Question) → held result.slots.now result.turns q ≡ None }
    {
        SlotTable { slots, turns: 0 }
    }
}

impl<'a> RecallTable for SlotTable<'a> {
    ghost table = { λ t. held t.slots.now t.turns };

    ghost finite = { λ t. held_finite t.slots.now t.turns };

    fn recall(&self, question: Question) -> Option<u32> {
        let i = self.slot_of(question)?;
        let slot = self.slots[i as usize];
        let full = slot.question == question && self.was_filled(slot.turn, i);
        full.then_some(slot.answer)
    }

    // Beyond what every table promises: with a slot at all the entry is there then, and while there are fewer turns than
    // slots the entries in other slots stay.
    fn tell(&mut self, question: Question, answer: u32)
        ensures { (Told (held self.old.slots.now self.old.turns) question answer (held self.new.slots.now self.new.turns)) × ((Recalls self.old.slots.now question answer (held self.new.slots.now self.new.turns)) × (Spares self.old.slots.now self.old.turns question (held self.new.slots.now self.new.turns))) }
    {
        let Some(i) = self.slot_of(question) else {
            return;
        };
        let turn = self.turn_for(i);
        self.slots[turn as usize].filled = i;
        let slot = self.slots[i as usize];
        self.slots[i as usize] = Slot {
            question,
            answer,
            turn,
            ..slot
        };
        self.turns = self.turns.max(turn + 1);
    }

    fn forget(&mut self) {
        self.turns = 0;
    }
}
