#![tactic(auto)]

// How far a node may grow: the scan of its boundary.

pub mod lengths; // lengths, signed and halved
pub mod found; // what a scan may meet
pub mod look; // what one side says of a length
pub mod join; // what the sides say together
pub mod stop; // the length answer at dual variable 0
pub mod scan; // the length answer
