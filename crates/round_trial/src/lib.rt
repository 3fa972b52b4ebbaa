#![tactic(auto)]

// All clusters at once, on a sound block with a scratch that is all zero: the trial over the active nodes.

pub mod trial; // the trial: each Shrink node, then each Grow node
