// Walks along a code: whether it is in a list, what remains under it, and the list with it or without it.
#![tactic(auto)]

pub mod asking;
pub mod changing;
mod frames;
