#![tactic(auto)]

// The rows of a table from another decoder.

pub mod rows; // the row of one defect, and all rows
