// The command language: a line of bytes as a command, and the text of an answer.
//
// A line may hold any bytes. Nothing is allocated, and every call is linear in the bytes that it is given.
#![tactic(auto)]

pub mod answer;
pub mod command;
mod fields;
pub mod hex;
pub mod kinds;
