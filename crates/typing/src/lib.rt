// What a script asks of the types of its variables: the walk over its bytes that notes it, and the written types.
#![tactic(auto)]

pub mod names;
pub mod pairs;
pub mod walk;

use definitions::VARIABLE_LIMIT;
use facts::Place;
use facts::noting::Tables;

// The place of a name that was read, and the offset after it.
#[derive(Clone, Copy)]
pub struct NameRead {
    pub next: usize,
    pub place: Place,
}

// The tables after an expression's demands are noted, the node of its value, and the offset after it.
#[derive(Clone, Copy)]
pub struct ExprRead {
    pub next: usize,
    pub node: usize,
    pub tables: Tables,
}

// The tables after a tree's demands are noted, and the offset after it.
#[derive(Clone, Copy)]
pub struct TablesRead {
    pub next: usize,
    pub tables: Tables,
}

// What the pairs of a script say, a byte for each variable, and the offset after it.
#[derive(Clone, Copy)]
pub struct CodesRead {
    pub next: usize,
    pub codes: [u8; VARIABLE_LIMIT],
}
