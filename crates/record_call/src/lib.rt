#![tactic(auto)]

// A run over records: the call that a record asks for. The definitions are in crate `records` (specs/Run).

pub mod one_call; // the call of a body, on an opened block
mod long_circle; // a circle that is too long to be accepted
