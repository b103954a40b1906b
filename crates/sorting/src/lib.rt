// Quads by their keys, put into rising order of the page records that their slots say.
#![tactic(auto)]

pub mod merging; // merging.rt: keys sorted by halves
