// Reading a script: whether its records are well formed (refusal 6), from an offset on.
#![tactic(auto)]

pub mod pairs; // pairs.rt: the pairs of a block
pub mod script; // script.rt: names, expressions, booleans, queries, scripts
