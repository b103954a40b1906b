// The calls that are lent a card alone: total and suggest.
#![tactic(auto)]

pub mod suggest; // suggest.rt: the suggest call
pub mod total; // total.rt: the total call
