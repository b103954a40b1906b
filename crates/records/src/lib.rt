// Lists of term, schema and page records: how many there are, whether one is there twice, and the table that loading numbers.
#![tactic(auto)]

pub mod lists;
pub mod numbering;
pub mod schema;

// A term's number, and how many terms there then are; above the limit where the table had no room.
#[derive(Clone, Copy)]
pub struct Joined {
    pub number: u16,
    pub terms: usize,
}
