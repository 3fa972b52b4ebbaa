#![tactic(auto)]

// The rows of a block as parts of it, and tests of the words of a row, which read a word as it stands.

pub mod parts; // the rows over vertices, sides and edges, and the list store
pub mod row_words; // the words of a row
