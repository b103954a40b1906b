// The store's half of soundness (refusal 10): whether tables and saved store are sound.
#![tactic(auto)]

pub mod graphs; // graphs.rt: the fetched graphs
pub mod tables; // tables.rt: the store's half
pub mod terms; // terms.rt: the term table
