// What a taker of orders means: byte sinks and paragraph takers are one notion at two kinds of order.
#![tactic(auto)]

pub mod phase;
