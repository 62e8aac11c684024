// Faults: why, where and at which place an order was refused, and how a fault rises.
#![tactic(auto)]

pub mod cap;
pub mod cause;
pub mod fault;
pub mod layer;
pub mod layer_fault;
pub mod own_fault;
pub mod refusal;
pub mod rise;
mod words;
