// The facts that a script's rules ask for: a union-find of type families, and the tables of facts.
#![tactic(auto)]

pub mod families;
pub mod noting;

use definitions::VARIABLE_LIMIT;

// What a term of the script stands for: an open variable, or what has a least type that is known, by its code.
#[derive(Clone, Copy)]
pub enum Place {
    Variable(usize),
    Known(u8),
}

// The families: of URIs, strings, numbers and date_times.
pub const FAMILIES: usize = 4;

// The nodes of the union-find: the families, then one for each variable's datatype, then one for each variable's range.
pub const RANGE_NODES: usize = FAMILIES + VARIABLE_LIMIT;

pub const NODES: usize = RANGE_NODES + VARIABLE_LIMIT;

// A flag for each pair of variables.
pub const EDGES: usize = VARIABLE_LIMIT * VARIABLE_LIMIT;

// The byte of a variable that no pair binds, among the written types.
pub const UNBOUND: u8 = 255;
