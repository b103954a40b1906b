// Which written type would do.
#![tactic(auto)]

pub mod suggest; // suggest.rt: what is suggested for a script
