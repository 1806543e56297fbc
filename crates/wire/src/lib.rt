// The bytes of a dispatch: its head, its records, and what may be wrong with them.
//
// Big-endian: the length of the whole (4 bytes), version 1 (1), the kind's number (1), the vertex count (4), the root (4),
// then a record a vertex: label, zero link (4), one link (4). Each function here takes one part and costs its bytes.
#![tactic(auto)]

pub mod faults;
pub mod head;
pub mod records;
