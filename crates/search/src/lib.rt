// The search for answers, variable by variable.
#![tactic(auto)]

use definitions::PAIR_LIMIT;
use query::View;
use seeking::Part;

pub mod answer;
mod find;
pub mod trying; // trying.rt: one tuple
mod types;

// A block as the search sees it: its query's offset, its variables with their types' codes, and the last
// tuple, which counts where the search is told so.
#[derive(Clone, Copy)]
pub struct Block {
    pub at: usize,
    pub size: usize,
    pub vars: [usize; PAIR_LIMIT],
    pub types: [u8; PAIR_LIMIT],
    pub last: [usize; PAIR_LIMIT],
}

// A block to search: what its query is evaluated over, and the parts of the query.
#[derive(Clone, Copy)]
pub struct Search<'a> {
    pub view: &'a View<'a>,
    pub block: Block,
    pub parts: &'a [Part],
}

// One tuple tried: whether the query holds, and how many records were evaluated for it.
#[derive(Clone, Copy)]
pub struct Tried {
    pub holds: bool,
    pub records: usize,
}

// The codes below a type's: its own, one other, and with ranges all of range(d).
#[derive(Clone, Copy)]
pub struct Under {
    pub own: u8,
    pub other: u8,
    pub ranges: bool,
}
