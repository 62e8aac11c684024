// Undoing stages: what they are and mean, the plain stage, and the pair of any two.
#![tactic(auto)]

pub mod pair;
pub mod plain;
pub mod stage;
