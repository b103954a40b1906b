// A block's answer: what the search is given, and what it finds; and one tuple tried on a block's query.
#![tactic(auto)]

ghost use Rattle.std.specs.Prelude.{◌≡◌, ℕ, ◌+◌, ◌≤◌, ◌<◌, length, get_or};
ghost use Rattle.definitions.specs.Bytes.{byte, past};
ghost use Rattle.answers.specs.Answers.{known_of, pair_numbers, types_of, four_of, block_of, short_number, short_numbers};
ghost use Rattle.acts.specs.Steps.{Top};
ghost use Rattle.answers.specs.Lends.{LendsIn, AnswersNow, TriesNow};
ghost use Rattle.definitions.specs.Limits.{block_width, variable_limit};

use definitions::{PAIR_LIMIT, QUERY_OFFSET, SavedControl, VARIABLE_LIMIT};
use fields::numbers::index;
use query::View;
use scan::FREE;
use search::answer::answer;
use search::trying::try_tuple;
use search::{Block, Tried};
use store::stack::top;

// What is known of the 16 variables.
fn known_of(
    bound: [bool; VARIABLE_LIMIT],
    bindings: [u16; VARIABLE_LIMIT],
) -> [usize; VARIABLE_LIMIT]
    ensures { result ≡ known_of bound bindings }
{
    let mut known = [FREE; VARIABLE_LIMIT];
    for v in 0..VARIABLE_LIMIT {
        known[v] = if bound[v] { bindings[v] as usize } else { FREE };
    }
    known
}

// The variables of a block's four pairs, of which the unused are zero.
fn pair_numbers(script: &[u8], at: usize) -> [usize; PAIR_LIMIT]
    requires { past at block_width ≤ length script.now }
    ensures { result ≡ pair_numbers script.now at }
{
    [
        index(script[at + 3]),
        index(script[at + 5]),
        index(script[at + 7]),
        index(script[at + 9]),
    ]
}

// The reported types of four variables. One by one: with `map` it stays open that the closure's index is below 16 at each call.
fn types_of(types: [u8; VARIABLE_LIMIT], vars: [usize; PAIR_LIMIT]) -> [u8; PAIR_LIMIT]
    requires { (k : ℕ) → get_or vars k 0 < variable_limit }
    ensures { result ≡ types_of types vars }
{
    let [a, b, c, d] = vars;
    [types[a], types[b], types[c], types[d]]
}

// Four numbers as the search counts them.
fn wide_numbers(numbers: [u16; PAIR_LIMIT]) -> [usize; PAIR_LIMIT]
    ensures { result ≡ four_of numbers }
{
    numbers.map(|n| n as usize)
}

// A number of the term table, as the saved run has it.
fn short_number(n: usize) -> u16
    ensures { result ≡ short_number n }
{
    u16::try_from(n).unwrap_or(0)
}

fn short_numbers(numbers: [usize; PAIR_LIMIT]) -> [u16; PAIR_LIMIT]
    ensures { result ≡ short_numbers numbers }
{
    numbers.map(short_number)
}

// The block at an offset as the search sees it.
fn block_of(
    script: &[u8],
    at: usize,
    reported: [u8; VARIABLE_LIMIT],
    used: [u16; PAIR_LIMIT],
) -> Block
    requires block_width_in_bounds { past at block_width ≤ length script.now }
    requires by_index { (k : ℕ) → get_or (pair_numbers script.now at) k 0 < variable_limit }
    ensures { result ≡ block_of script.now at reported used }
{
    let vars = pair_numbers(script, at);
    Block {
        at: at + QUERY_OFFSET,
        size: index(script[at + 2]),
        vars,
        types: types_of(reported, vars),
        last: wide_numbers(used),
    }
}

// The answer of the block on top: the first after the tuple that it last used.
// Ruled out: answers frozen as the block was entered; a tuple of terms that no longer fit the variables' types.
pub fn block_answer(run: SavedControl, view: &View<'_>, at: usize) -> Option<[u16; PAIR_LIMIT]>
    requires top { (w : LendsIn view.now run) × Top w.here at }
    requires at_value { byte view.now.script.now at ≡ 0x73 }
    ensures { (w : LendsIn view.now run) (t : Top w.here at) →
        AnswersNow w t result }
{
    let item = top(run);
    let block = block_of(view.script, at, run.types, item.last);
    let free = known_of(run.bound, run.bindings);
    let numbers = answer(view, block, free, item.started)?;
    Some(short_numbers(numbers))
}

// One tuple tried on the query of the block on top, with the run's other bindings; numbers past the block's count are passed over.
// Ruled out: the first variable kept as it was bound; a variable that is not bound taken for bound.
pub fn try_top(
    run: SavedControl,
    view: &View<'_>,
    at: usize,
    tuple: [u16; PAIR_LIMIT],
) -> Option<Tried>
    requires top { (w : LendsIn view.now run) × Top w.here at }
    requires at_value { byte view.now.script.now at ≡ 0x73 }
    ensures { (w : LendsIn view.now run) (t : Top w.here at) →
        TriesNow w t tuple result }
{
    let block = block_of(view.script, at, run.types, tuple);
    let known = known_of(run.bound, run.bindings);
    let numbers = wide_numbers(tuple);
    try_tuple(view, &block, known, numbers, 0)
}
