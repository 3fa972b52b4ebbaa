#![tactic(auto)]

// A crate without code: every run's own table, dual variables and distances get yes. See specs/Theorems.antt.
