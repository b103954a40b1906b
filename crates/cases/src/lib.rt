// What the roster's cases are made of: values of plain data, and rows of words in one literal.
#![tactic(auto)]

pub mod made; // made.rt: values, and texts in the fields that hold them
pub mod rows; // rows.rt: rows of words
