// Bytes and the numbers in them.
#![tactic(auto)]

pub mod numbers;
