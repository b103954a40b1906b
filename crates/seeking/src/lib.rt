// The seek: the least number of a variable with which a query may still hold, over the query as a whole and part by part.
#![tactic(auto)]

pub mod by_parts;
pub mod listing;
mod seek;

// Parts of a query at most; what is left beyond them is one part.
pub const PART_LIMIT: usize = 16;

// A part: its offset, a bit for each variable that it may name, and whether it is a filter.
#[derive(Clone, Copy)]
pub struct Part {
    pub at: usize,
    pub named: usize,
    pub filter: bool,
}

// What the seek finds at a query's record: the offset after it, and the least number. The count stands for none, so that the lesser of two needs no case.
#[derive(Clone, Copy)]
pub struct Sought {
    pub next: usize,
    pub least: usize,
}

// The parts of a query, and how many they are.
#[derive(Clone, Copy)]
pub struct Parts {
    pub size: usize,
    pub list: [Part; PART_LIMIT],
}
