#![tactic(auto)]

// Every small patch: the edges of graph k, and whether each of its vertices reaches vertex 3. The definitions are in specs/.

pub mod patch; // the edges of a patch
pub mod reach; // whether each vertex reaches vertex 3
