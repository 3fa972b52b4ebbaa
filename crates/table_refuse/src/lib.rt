#![tactic(auto)]

// What refuses the check of a table from another decoder.

pub mod refuse; // what refuses the call
