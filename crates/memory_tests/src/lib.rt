#![tactic(auto)]

// The tests of lent memory: refusals 1 and 2. The definitions are in crate `graph`, the parts of the soundness test in `graph_tests` and `node_tests`.

pub mod sound; // the soundness test of a block
pub mod refuse; // what a call asks of lent memory
