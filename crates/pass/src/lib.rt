#![tactic(auto)]

// What the passes that prepare a node share. The definitions of all passes are in specs/.

pub mod another; // whether another pass is called for
pub mod scratch; // the scratch of a pass is cleared
