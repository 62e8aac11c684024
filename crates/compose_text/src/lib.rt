// A plain text composed into memory, with or without the dot stage.
#![tactic(auto)]

pub mod agree;
pub mod composed;
