// Whole runs: what the rules state for the orders that composers were given, and what holds between runs.
#![tactic(auto)]

pub mod promise;
