#![tactic(auto)]

// What the active nodes answer, on a block on which each of them can be asked.

pub mod node_answers; // what the active nodes answer, together where all are free
