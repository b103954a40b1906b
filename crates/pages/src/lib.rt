// Taking in pages: a page's records one by one, their terms numbered, their quads put in order.
#![tactic(auto)]

pub mod triples; // triples.rt: taking in a page
pub mod intake; // intake.rt: a page call on copies of both tables

use definitions::{NUMBER_WIDTH, OBJECT_OFFSET, PAGE_LIMIT, PageAnswer, QUAD_LIMIT, SavedStore};

// The least page record: its object is a number. `Room` in specs/ has the same names and numbers.
pub const LEAST_RECORD_WIDTH: usize = OBJECT_OFFSET + NUMBER_WIDTH;

// A page has at most so many records.
pub const RECORD_LIMIT: usize = PAGE_LIMIT / LEAST_RECORD_WIDTH;

// So many quads may come together while a page is taken in.
pub const GATHERED_LIMIT: usize = QUAD_LIMIT + RECORD_LIMIT;

// The numbers of a triple's terms, and how many terms there then are.
#[derive(Clone, Copy)]
pub struct Numbers {
    pub subject: u16,
    pub property: u16,
    pub object: u16,
    pub terms: usize,
}

// Terms, keys of the page's quads, and skipped records so far.
#[derive(Clone, Copy)]
pub struct Counts {
    pub terms: usize,
    pub keys: usize,
    pub skipped: u32,
}

// What a page call gives: its answer, and the saved store after it.
#[derive(Clone, Copy)]
pub struct AfterPage {
    pub answer: PageAnswer,
    pub store: SavedStore,
}
