#![tactic(auto)]

// One pass of a shrinking preparation.

pub mod keep; // sides are kept once, vertices noted
pub mod release; // a vertex is released with its sides
pub mod tops; // overgrown tops of amount 0 are taken off
pub mod shrink; // the pass
