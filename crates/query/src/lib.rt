// Evaluating a query for one tuple; what a boolean may come to before all its variables are chosen; one pattern over the quads.
#![tactic(auto)]

ghost use Rattle.laws.specs.Ends.{EndsLent};

pub mod eval;
pub mod may; // may.rt: what a boolean may come to
pub mod names;

use definitions::Truth;
use scan::Four;
use values::Value;

// What a search is told: how many terms loading numbers, how many are in use, how many quads are stored, and now in two's complement.
#[derive(Clone, Copy)]
pub struct Context {
    pub loaded: usize,
    pub count: usize,
    pub quads: usize,
    pub clock: u64,
}

// What a query is evaluated over: the script with the table of its records' ends, ranks, the term table, the keys of the quads, the code of each term's least
// type, and what a search is told.
#[derive(Clone, Copy)]
pub struct View<'a> {
    pub script: &'a [u8],
    pub ends: &'a [u16],
    pub ranks: &'a [u8],
    pub table: &'a [u8],
    pub quads: &'a [u64],
    pub leasts: &'a [u8],
    pub context: Context,
    pub ghost ends_lent: { EndsLent script.now ends.now },
}

// A name read from the script: the offset after it, and its code.
#[derive(Clone, Copy)]
pub struct NameRead {
    pub next: usize,
    pub code: usize,
}

// A pattern's four names.
#[derive(Clone, Copy)]
pub struct NamesRead {
    pub next: usize,
    pub codes: Four,
}

// A test on what stands in the script: the offset after it, and its answer.
#[derive(Clone, Copy)]
pub struct Test {
    pub next: usize,
    pub holds: bool,
}

// A boolean's truth, and how many records were evaluated for it.
#[derive(Clone, Copy)]
pub struct Judged {
    pub next: usize,
    pub truth: Truth,
    pub records: usize,
}

// Whether a query holds, and how many records were evaluated for it.
#[derive(Clone, Copy)]
pub struct Held {
    pub next: usize,
    pub holds: bool,
    pub records: usize,
}

// An expression's value; none where not all its variables are known.
#[derive(Clone, Copy)]
pub struct Valued {
    pub next: usize,
    pub value: Option<Value>,
}

// A test's truth; none where not all its variables are known.
#[derive(Clone, Copy)]
pub struct Tested {
    pub next: usize,
    pub truth: Option<Truth>,
}
