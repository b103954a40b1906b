// How long a script takes: its records of kinds 71 to 74, where no each block is among them.
#![tactic(auto)]

ghost use Rattle.std.specs.Prelude.{◌≡◌, true};
ghost use Rattle.definitions.specs.Reading.{read_script, parsed};
ghost use Rattle.definitions.specs.Total.{script_records, has_each};
ghost use Rattle.laws.specs.Walks.{Loads, Walked};
ghost use Rattle.laws.specs.ReadAnswers.{is_some};
ghost use Rattle.totals.specs.Totals.{total_in};

use definitions::{DEPTH_LIMIT, QUERY_OFFSET};
use walks::{after_name, after_query};

// The offset after what was walked, how many records of kinds 71 to 74 it has, and whether an each block is among them.
#[derive(Clone, Copy)]
pub struct Counts {
    pub next: usize,
    pub records: usize,
    pub each: bool,
}

// The records of the script at an offset.
// Ruled out: a count that leaves out the records of kind 72; an each block looked for in the root alone.
pub fn count_records(script: &[u8], terms: usize, at: usize, left: u8) -> Counts
    requires { Loads (read_script script.now terms left at) }
    ensures { Walked (λ c. (result.records ≡ script_records c) × (result.each ≡ has_each c)) (read_script script.now terms left at) result.next }
{
    let kind = script[at];
    let first = at + 1;
    let below = left - 1;
    match kind {
        0x71 => Counts {
            next: first,
            records: 1,
            each: false,
        },
        0x72 => {
            let next = after_name(script, terms, first, below);
            let c = count_records(script, terms, next, below);
            let records = c.records + 1;
            Counts { records, ..c }
        }
        0x73 => {
            let own = script[first] == 1;
            let next = after_query(script, terms, at + QUERY_OFFSET, below);
            let inner = count_records(script, terms, next, below);
            let records = inner.records + 1;
            let each = own || inner.each;
            Counts {
                records,
                each,
                ..inner
            }
        }
        _ => {
            let a = count_records(script, terms, first, below);
            let b = count_records(script, terms, a.next, below);
            let records = a.records + b.records + 1;
            let each = a.each || b.each;
            Counts { records, each, ..b }
        }
    }
}

// The total of a whole script. Ruled out: a total told of a script with an each block, and none of the others.
pub fn total_of(script: &[u8], terms: usize) -> usize
    requires { is_some (parsed terms script.now) ≡ true }
    ensures { result ≡ total_in (parsed terms script.now) }
{
    let counts = count_records(script, terms, 0, DEPTH_LIMIT);
    if counts.each { 0 } else { counts.records }
}
