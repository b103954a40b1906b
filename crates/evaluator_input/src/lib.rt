// The evaluator's input: what a run call is lent, then tuples. Ranks; the lengths of terms, schema and script; these three, both tables, the saved run and now.
#![tactic(auto)]

ghost use Rattle.std.specs.Prelude.{◌≡◌, ◌+◌, ◌≤◌, ◌<◌, length};
ghost use Rattle.definitions.specs.Limits.{pair_limit};
ghost use Rattle.definitions.specs.Exports.{words_from};
ghost use Rattle.evaluator_input.specs.Input.{tuple_width, head_width, schema_at, script_at, term_table_at, shape_of};

use definitions::{
    NUMBER_WIDTH, PAIR_LIMIT, PRINTER_LIMIT, QUAD_TABLE_WIDTH, RANKS_WIDTH, SAVED_WIDTH,
    TERM_TABLE_WIDTH,
};
use fields::numbers::{number_at, word_at};

pub const TUPLE_WIDTH: usize = 2 * PAIR_LIMIT;

// The ranks, and the lengths of terms, schema and script.
pub const HEAD_WIDTH: usize = RANKS_WIDTH + 6;

// So many tuples there is room for beside terms, schema and script that are full.
const TUPLE_LIMIT: usize = 64;

const CARD_LIMIT: usize = HEAD_WIDTH + PRINTER_LIMIT;

const STATION_WIDTH: usize = TERM_TABLE_WIDTH + QUAD_TABLE_WIDTH + SAVED_WIDTH + NUMBER_WIDTH;

pub const INPUT_LIMIT: usize = CARD_LIMIT + STATION_WIDTH + TUPLE_LIMIT * TUPLE_WIDTH;

// Whether an input may be evaluated.
#[derive(Clone, Copy)]
pub enum Shape {
    Whole,
    CutOff,
    TooLong,
}

// Where schema, script and term table begin.
#[derive(Clone, Copy)]
pub struct Starts {
    pub schema: usize,
    pub script: usize,
    pub table: usize,
}

// The tuple at an offset. Ruled out: the numbers in another order; a number of the next tuple.
pub fn tuple_at(s: &[u8], at: usize) -> [u16; PAIR_LIMIT]
    requires { at + tuple_width ≤ length s.now }
    ensures { result ≡ words_from pair_limit s.now at }
{
    let a = number_at(s, at);
    let b = number_at(s, at + 2);
    let c = number_at(s, at + 4);
    let d = number_at(s, at + 6);
    [a, b, c, d]
}

// Where the parts begin whose lengths the head has. Ruled out: a part that begins in the one before; the lengths in another order.
pub fn starts_in(input: &[u8]) -> Starts
    requires { head_width ≤ length input.now }
    ensures schema_value { result.schema ≡ schema_at input.now }
    ensures script_value { result.script ≡ script_at input.now }
    ensures table_value { result.table ≡ term_table_at input.now }
    ensures head_width_le_schema { (head_width ≤ result.schema) × (result.schema ≤ result.script) × (result.script ≤ result.table) × (result.table < head_width + 196608) }
{
    let schema = HEAD_WIDTH + word_at(input, RANKS_WIDTH);
    let script = schema + word_at(input, RANKS_WIDTH + 2);
    let table = script + word_at(input, RANKS_WIDTH + 4);
    Starts {
        schema,
        script,
        table,
    }
}

// Whether the first tuple may begin and the last one ends, within the limit.
// Ruled out: an input that ends within a tuple taken for one of fewer; an input of one byte too many taken.
pub fn shape_of(input: &[u8]) -> Shape
    ensures { result ≡ shape_of input.now }
{
    let n = input.len();
    if INPUT_LIMIT < n {
        return Shape::TooLong;
    }
    if n < HEAD_WIDTH {
        return Shape::CutOff;
    }
    let parts = starts_in(input);
    let tuples = parts.table + STATION_WIDTH;
    if n < tuples {
        return Shape::CutOff;
    }
    if (n - tuples) % TUPLE_WIDTH != 0 {
        return Shape::CutOff;
    }
    Shape::Whole
}
