#![tactic(auto)]

// What stands in the way of the active nodes, in a lent list.

pub mod listed; // what stands in the way, in a lent list
