#![tactic(auto)]

// What changes the nodes of a block and the store of their lists. The definitions are in crate `graph`.

pub mod clear; // clearing a block
pub mod replace; // replacing the lists of a node
pub mod insert; // one more node
