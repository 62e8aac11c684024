// Paragraph takers: what they are and mean, the law that each keeps, tickets, and the feeding of a chunk.
#![tactic(auto)]

pub mod feed;
pub mod paragraph_taker;
pub mod text;
pub mod ticket;
