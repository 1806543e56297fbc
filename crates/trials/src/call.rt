// The calls of a store, as a table lists them. A code stands there as its text.
use crate::answer::Code;
use std::fmt;

#[derive(Clone, Copy)]
pub enum Call {
    Add(&'static str, u32),
    Remove(&'static str, u32),
    Join(u32, u32, u32),
    Holds(&'static str, u32),
    Under(u32, &'static str),
    Count(u32),
    Vertices(u32),
    // A list, k, and how many symbols the output has room for.
    Pick(u32, u64, usize),
    Look(u32),
    Used,
}

impl fmt::Display for Call {
    fn fmt<W: fmt::Write>(&self, f: &mut fmt::Formatter<W>) -> fmt::Result {
        match *self {
            Call::Add(code, list) => write!(f, "add {} to {list}", Code(code)),
            Call::Remove(code, list) => write!(f, "remove {} from {list}", Code(code)),
            Call::Join(rule, first, second) => write!(f, "join {rule} of {first} and {second}"),
            Call::Holds(code, list) => write!(f, "holds {} in {list}", Code(code)),
            Call::Under(list, code) => write!(f, "under {list} by {}", Code(code)),
            Call::Count(list) => write!(f, "count of {list}"),
            Call::Vertices(list) => write!(f, "vertices of {list}"),
            Call::Pick(list, k, room) => write!(f, "pick {k} of {list} with room for {room}"),
            Call::Look(n) => write!(f, "look {n}"),
            Call::Used => write!(f, "used"),
        }
    }
}
