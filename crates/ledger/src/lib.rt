// The meaning of lists and diagrams: the definitions that every contract cites, and the theorems that make a list's
// number the list. A vertex is the only thing here that a program holds.
//
// Each theorem stands on the contract of a function that does nothing else: `lists` says that lists are plain sets of
// codes, `diagrams` that sound vertices are the least diagram of each list, `changes` what laying down and clearing out
// do, `dispatches` what is written of a list, and `examples` shows it all on worked rows.
#![tactic(auto)]

pub mod changes;
pub mod diagrams;
pub mod dispatches;
pub mod examples;
pub mod lists;

// A vertex: a label and two links. Links 0 and 1 are the terminals; a link from 2 on is a vertex's number.
#[derive(Drop, Clone, Copy)]
pub struct Vertex<S> {
    pub label: S,
    pub zero: u32,
    pub one: u32,
}
