// Questions that are answered by counting: how many codes a list has, how many vertices are reached from it, and which
// code of it has a given number of codes before it. Each goes over the numbers up to the list's once or twice, whatever
// lies on the shelf, and over no other part of the work space. The work space is lent, and a slice keeps no fact, so each
// function says how much of it there is.
#![tactic(auto)]

pub mod marking;
pub mod picking;
pub mod tallying;
