// Line ends: LF turned into CRLF, and what a text's lines come to.
#![tactic(auto)]

pub mod count;
pub mod crlf;
