#![tactic(auto)]

// A run over records: what one record does. The definitions are in crate `records` (specs/Run).

pub mod one_record; // one record of a run
