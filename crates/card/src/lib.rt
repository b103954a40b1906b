// A card: terms, schema and script checked (refusals 2 to 9), and the least types of its terms.
#![tactic(auto)]

pub mod refusals; // refusals.rt: terms, schema and script
pub mod leasts; // leasts.rt: the least types of the terms
