#![tactic(auto)]

// A table from another decoder: graph, defects, dual variables, growths, and the distances from each defect to every vertex get yes or no.
// When it is yes is defined in specs/Verdict.

pub mod reach; // whether every vertex reaches a virtual one
pub mod check; // the call
pub mod stream; // the same row by row
