// The lines of a plain text, handed to a paragraph taker as paragraphs.
#![tactic(auto)]

mod cut;
pub mod line;
pub mod lines;
pub mod paragraph;
