// Clearing out a shelf: the lists of a keep-list and all that is reached from them stay, and nothing else.
#![tactic(auto)]

pub mod clearing;
