#![tactic(auto)]

// The distances of a table from another decoder.

pub mod distances; // whether the distances of one defect are the shortest, by a certificate
