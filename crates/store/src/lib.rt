// The store: paragraphs kept in the caller's records and bytes.
#![tactic(auto)]

pub mod record;
pub mod store;
