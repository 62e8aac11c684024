// A mail body through the dot stage into memory, and back through the undoing to a comparison.
#![tactic(auto)]

pub mod back;
pub mod carried;
pub mod send;
pub mod stop;
pub mod trip;
