// Ends: the bottom of a pile. The memory end keeps what it takes; the comparing end holds it to a reference text.
#![tactic(auto)]

pub mod buffer;
pub mod compare;
pub mod end;
pub mod holder;
pub mod memory;
pub mod pile;
pub mod reference;
