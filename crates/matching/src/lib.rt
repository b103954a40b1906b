// Patterns on texts and language ranges on tags, in the fields that hold them.
#![tactic(auto)]

pub mod pattern;
pub mod range;
