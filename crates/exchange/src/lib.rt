// A mail exchanged: sent twice, with its text cut at different places, and read back twice.
#![tactic(auto)]

pub mod answers;
pub mod exchange;
pub mod mail;
pub mod reading_back;
pub mod sending;
