// The term table: its slots, their hashes, and the number of a term.
#![tactic(auto)]

pub mod hashes;
pub mod slots;
