// Which slot a question has, which slots are full, and the turn in which a slot is filled.
ghost use Rattle.std.specs.Prelude.{◌≡◌, ℕ, ◌<◌, ◌≤◌, true, length, MatchOption};
ghost use Rattle.recall_tables.specs.Slots.{filled_in, scatter, slot_count, slot_of, stir};

use crate::SlotTable;
use memory::recall::Question;

// Spreads the bits of a number over all its bits.
fn stir(x: u64) -> u64
    ensures { result ≡ stir x }
{
    (x ^ (x >> 32)).wrapping_mul(0x9E37_79B9_7F4A_7C15)
}

// A number from the whole question: questions that differ little, as those of one join, differ in it a lot.
fn scatter(question: Question) -> u32
    ensures { result ≡ scatter question }
{
    let links = u64::from(question.first) * 0x1_0000_0000 + u64::from(question.second);
    let rule = u64::from(question.rule) * 0x9D_DFEA_08EB_382D;
    (stir(stir(links ^ rule)) >> 32) as u32
}

// The slot of a question, where there are so many.
fn slot_among(count: u32, question: Question) -> u32
    ensures value { result ≡ slot_of count question }
    ensures within { 0 < count → result < count }
{
    (u64::from(scatter(question)) * u64::from(count) >> 32) as u32
}

impl SlotTable<'_> {
    // Slots have numbers of 32 bits.
    fn count(&self) -> u32
        ensures { result ≡ slot_count self.now.slots.now }
    {
        u32::try_from(self.slots.len()).unwrap_or(u32::MAX)
    }

    // The slot of a question; none where there are no slots.
    pub(crate) fn slot_of(&self, question: Question) -> Option<u32>
        ensures { MatchOption result (length self.now.slots.now ≡ 0) (λ i. (i ≡ slot_of (slot_count self.now.slots.now) question) × (i < length self.now.slots.now)) }
    {
        let count = self.count();
        if count == 0 {
            return None;
        }
        Some(slot_among(count, question))
    }

    // Whether slot i was filled in this turn, one of the turns so far.
    pub(crate) fn was_filled(&self, turn: u32, i: u32) -> bool
        ensures { result ≡ filled_in self.now.slots.now self.now.turns turn i }
    {
        turn < self.turns
            && self
                .slots
                .get(turn as usize)
                .is_some_and(|note| note.filled == i)
    }

    // The turn to fill slot i in: its own if it is full, and else a new one. Where no turn is left, which does not
    // happen to a table that began with none, it is the first again, and the slot of that turn is empty from then on.
    pub(crate) fn turn_for(&self, i: u32) -> u32
        requires { i < length self.now.slots.now }
        ensures early { result ≤ self.now.turns }
        ensures within { result < slot_count self.now.slots.now }
        ensures spared { self.now.turns < slot_count self.now.slots.now → (k : ℕ) → filled_in self.now.slots.now self.now.turns result k ≡ true → k ≡ i }
    {
        let turns = self.turns;
        let turn = self.slots[i as usize].turn;
        if self.was_filled(turn, i) {
            return turn;
        }
        if turns < self.count() { turns } else { 0 }
    }
}
