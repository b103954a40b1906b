// The saved run: operations on stack, bindings and fetched graphs, and the form without what means nothing.
#![tactic(auto)]

pub mod stack; // stack.rt: stack and bindings
pub mod graphs; // graphs.rt: the fetched list
pub mod bare; // bare.rt: what stands where nothing does
pub mod canonical; // canonical.rt: the saved run without what means nothing
