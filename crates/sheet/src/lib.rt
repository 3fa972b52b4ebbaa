#![tactic(auto)]

// Opening a graph with the weights of a calibration sheet: whole ten-thousandths, one for each edge, made even numbers up to 1,000,000.

pub mod values; // the values of a sheet: in range, the largest, how many vanish
pub mod weights; // their weights, and the edges with them
pub mod open; // the refusals and the call
