// The functions of a shelf, as a table lists them.
use letters::Letter;
use std::fmt;

// A vertex of letters: its label, its zero link and its one link.
#[derive(Clone, Copy)]
pub struct Drawn(pub Letter, pub u32, pub u32);

#[derive(Clone, Copy)]
pub enum ShelfCall {
    Capacity,
    Used,
    Look(u32),
    Find(Drawn),
    Append(Drawn),
    FindOrAppend(Drawn),
    Cut(u32),
    // A sign a vertex: + marks it.
    Gather(&'static str),
}

impl fmt::Display for Drawn {
    fn fmt<W: fmt::Write>(&self, f: &mut fmt::Formatter<W>) -> fmt::Result {
        let label = char::from(u8::from(self.0));
        let zero = self.1;
        let one = self.2;
        write!(f, "({label}, {zero}, {one})")
    }
}

// Marks as a line shows them.
#[derive(Clone, Copy)]
struct Marks<'a>(&'a str);

impl<'a> fmt::Display for Marks<'a> {
    fn fmt<W: fmt::Write>(&self, f: &mut fmt::Formatter<W>) -> fmt::Result {
        let marks = self.0;
        match marks.len() {
            0 => write!(f, "no marks"),
            _ => write!(f, "{marks}"),
        }
    }
}

impl fmt::Display for ShelfCall {
    fn fmt<W: fmt::Write>(&self, f: &mut fmt::Formatter<W>) -> fmt::Result {
        match *self {
            ShelfCall::Capacity => write!(f, "capacity"),
            ShelfCall::Used => write!(f, "used"),
            ShelfCall::Look(n) => write!(f, "look {n}"),
            ShelfCall::Find(vertex) => write!(f, "find {vertex}"),
            ShelfCall::Append(vertex) => write!(f, "append {vertex}"),
            ShelfCall::FindOrAppend(vertex) => write!(f, "find or append {vertex}"),
            ShelfCall::Cut(n) => write!(f, "cut to {n}"),
            ShelfCall::Gather(marks) => write!(f, "gather by {}", Marks(marks)),
        }
    }
}
