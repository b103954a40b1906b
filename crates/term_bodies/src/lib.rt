// The bodies of term records: texts filled with zeros, and the body of each kind.
#![tactic(auto)]

pub mod bodies; // bodies.rt: by the kind of their record
pub mod texts; // texts.rt: fields of text
