// Byte sinks: what they are and mean, the law that each keeps, and the feeding of a chunk.
#![tactic(auto)]

pub mod byte_sink;
pub mod feed;
