#![tactic(auto)]

// Lent memory: a graph is opened in it. The definitions are in crate `graph`.

pub mod given; // the words that the host gives with a graph
pub mod opened; // the words of an opened block
pub mod open; // opening a graph: the refusals and the call
