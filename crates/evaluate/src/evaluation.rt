// The whole of what is put out.
ghost use Rattle.std.specs.Prelude.{◌≡◌, true, ◌≤◌, length};
ghost use Rattle.output.specs.Written.{Written};
ghost use Rattle.evaluator_input.specs.Input.{input_limit, uncut};
ghost use Rattle.evaluate.specs.Evaluator.{output_room, evaluated};

use definitions::{NUMBER_WIDTH, QUAD_TABLE_WIDTH, RANKS_WIDTH, SAVED_WIDTH, TERM_TABLE_WIDTH};
use evaluator_input::{HEAD_WIDTH, INPUT_LIMIT, Shape, TUPLE_WIDTH, shape_of, starts_in};
use fields::numbers::long_at;
use output::put_text;
use saved_tuples::put_entered;
use tuple_lines::LINE_ROOM;

// One byte more than an input may have, so that one that is too long shows.
pub const INPUT_WIDTH: usize = INPUT_LIMIT + 1;

pub const OUTPUT_ROOM: usize = LINE_ROOM * (INPUT_LIMIT / TUPLE_WIDTH);

// What the parts of an input come to that is whole.
fn put_whole(input: &[u8], out: &mut [u8]) -> usize
    requires input_len_bound { length input.now ≤ input_limit }
    requires input_value { uncut input.now ≡ true }
    requires out_len { length out.old ≡ output_room }
    ensures written { Written (evaluated input.now) out.old out.new 0 result }
    ensures upper_bound { result ≤ length out.old }
{
    let n = input.len();
    let parts = starts_in(input);
    let schema = parts.schema;
    let script = parts.script;
    let table = parts.table;
    let store = table + TERM_TABLE_WIDTH;
    let saved = store + QUAD_TABLE_WIDTH;
    let now = saved + SAVED_WIDTH;
    let tuples = now + NUMBER_WIDTH;
    put_entered(
        &input[0..RANKS_WIDTH],
        &input[HEAD_WIDTH..schema],
        &input[schema..script],
        &input[script..table],
        &input[table..store],
        &input[store..saved],
        &input[saved..now],
        long_at(input, now),
        &input[tuples..n],
        out,
    )
}

// Ruled out: an input that ends within a tuple taken for one of fewer; an input of one byte too many taken.
pub fn evaluate(input: &[u8], out: &mut [u8]) -> usize
    requires { length out.old ≡ output_room }
    ensures written { Written (evaluated input.now) out.old out.new 0 result }
    ensures upper_bound { result ≤ length out.old }
{
    match shape_of(input) {
        Shape::TooLong => put_text(b"too long\n", out, 0),
        Shape::CutOff => put_text(b"cut off\n", out, 0),
        Shape::Whole => put_whole(input, out),
    }
}
