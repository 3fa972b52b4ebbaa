#![tactic(auto)]

// A run over records: how it starts and how it ends. The definitions are in crate `records` (specs/Run).

pub mod run; // a run between two records
