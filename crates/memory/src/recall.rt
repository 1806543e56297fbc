// A recall table: a finite table from questions to numbers.
ghost use Rattle.std.specs.Prelude.{◌≡◌, ℕ, Some, None, Option};
ghost use Rattle.memory.specs.declared.recall.Question.{Question};
ghost use Rattle.memory.specs.Tables.{Finite, Told};

// What may be recalled: the answer to a join by a rule of two list numbers.
#[derive(Clone, Copy, Default, PartialEq, Eq)]
pub struct Question {
    // By its number: any number may be asked, and slots lie in lent memory.
    pub rule: u8,
    pub first: u32,
    pub second: u32,
}

pub trait RecallTable {
    ghost table: { Self → Question → Option ℕ };

    ghost finite: { (t : Self) → Finite (table t) };

    // The entry for a question, or nothing.
    fn recall(&self, question: Question) -> Option<u32>
        ensures { result ≡ table self.now question };

    // Each entry after is an old one or the one told.
    fn tell(&mut self, question: Question, answer: u32)
        ensures { Told (table self.old) question answer (table self.new) };

    // Empties the table.
    fn forget(&mut self)
        ensures { (q : Question) → table self.new q ≡ None };
}
