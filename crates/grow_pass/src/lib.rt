#![tactic(auto)]

// One pass of a growing preparation.

pub mod take; // the vertices behind noted sides are taken
pub mod grow; // the pass
