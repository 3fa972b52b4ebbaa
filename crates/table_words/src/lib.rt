#![tactic(auto)]

// What a lab hands over: the words of a table from another decoder, and marks on the vertices of its graph.

pub mod table; // what is handed over beside the distances
pub mod words; // reading the words that are handed over
pub mod marks; // marks on vertices
