// The reader: wire bytes through any undoing stage, paragraphs to any taker.
#![tactic(auto)]

mod delivery;
mod line;
mod plan;
pub mod reader;
mod sign;
mod text;
