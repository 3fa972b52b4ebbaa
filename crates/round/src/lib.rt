#![tactic(auto)]

// All clusters at once, on a sound block with a scratch that is all zero: what the group answers.

pub mod group; // the length of the group
