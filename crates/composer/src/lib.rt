// The composer: folds paragraphs into lines of format=flowed mail (RFC 3676), over every byte sink.
#![tactic(auto)]

pub mod composer;
mod held_line;
mod paragraph;
mod wire;
mod wire_line;
