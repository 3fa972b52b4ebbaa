#![tactic(auto)]

// The calls of the dual module on a sound block, with their refusals. What each answers is defined in specs/.

pub mod refuse; // what refuses a call on a node
pub mod occupied; // whether a defect may stand at a vertex
pub mod defect; // insertion of a defect
pub mod tested; // the calls that prepare, and whether they keep the block sound
pub mod core_calls; // the calls on a sound block with a scratch that is all zero
pub mod advance; // growth by the length answer
pub mod group; // what the length of all active nodes answers
pub mod read; // reading: the growth table, the full edges, the representative vertex
