// The whole of what is printed.
ghost use Rattle.std.specs.Prelude.{◌≡◌, ◌≤◌, min, length};
ghost use Rattle.definitions.specs.Limits.{printer_limit};
ghost use Rattle.definitions.specs.Calls.{check, reported};
ghost use Rattle.definitions.specs.Printer.{terms_part, schema_part, script_part, printed};
ghost use Rattle.card.specs.Check.{Tells};
ghost use Rattle.output.specs.Written.{Written};
ghost use Rattle.type_lines.specs.Lines.{output_room};

use card::refusals::check_card;
use definitions::{PRINTER_LIMIT, Refusal, TERM_LIMIT, TERM_TABLE_WIDTH, VARIABLE_LIMIT};
use joined_input::{schema_end, terms_end};
use type_lines::{put_accepted, put_refused};

// One byte more than an input may have, so that one that is too long shows.
pub const INPUT_WIDTH: usize = PRINTER_LIMIT + 1;

fn least(a: usize, b: usize) -> usize
    ensures { result ≡ min a b }
{
    if a < b { a } else { b }
}

// The reported types of the input's three parts.
fn check_parts(input: &[u8]) -> Result<[u8; VARIABLE_LIMIT], Refusal>
    requires { length input.now ≤ printer_limit }
    ensures { Tells (λ c types. types ≡ reported c) (check (terms_part input.now) (schema_part input.now) (script_part input.now)) result }
{
    let n = input.len();
    let first = terms_end(input);
    let second = schema_end(input, first);
    let a = least(first, n);
    let b = least(second, n);
    let mut table = [0u8; TERM_TABLE_WIDTH];
    let mut leasts = [0u8; TERM_LIMIT];
    let card = check_card(
        &input[0..a],
        &input[a..b],
        &input[b..n],
        &mut table,
        &mut leasts,
    )?;
    Ok(card.types)
}

// Ruled out: an input of one byte too many checked; a text after what is printed.
pub fn print(input: &[u8], out: &mut [u8]) -> usize
    requires { length out.old ≡ output_room }
    ensures written { Written (printed input.now) out.old out.new 0 result }
    ensures upper_bound { result ≤ length out.old }
{
    if PRINTER_LIMIT < input.len() {
        return put_refused(Refusal::BadScript, out);
    }
    match check_parts(input) {
        Ok(types) => put_accepted(&types, out),
        Err(refusal) => put_refused(refusal, out),
    }
}
