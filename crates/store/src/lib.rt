// The store of finds lists: one number a list, over any shelf, any recall table and any kind of symbol.
#![tactic(auto)]

pub mod asks;
pub mod clears;
pub mod fault;
pub mod lays;
pub mod store;
pub mod travels;
