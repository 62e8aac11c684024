// The dot stage of RFC 5321, section 4.5.2, over every byte sink, and its undoing.
#![tactic(auto)]

pub mod dot;
pub mod line;
pub mod pile;
pub mod undo_state;
pub mod undot;
