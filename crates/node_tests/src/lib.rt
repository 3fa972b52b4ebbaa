#![tactic(auto)]

// The soundness test of the nodes: their numbers, their lists, the active list, and removed blossoms.

pub mod active; // the active list
pub mod node_lists; // where the lists of the nodes stand, and what they hold
pub mod nodes; // the nodes
pub mod own_lists; // the lists of an outermost node
pub mod removed; // removed blossoms
