// The printer's lines, written one after the other.
#![tactic(auto)]

ghost use Rattle.std.specs.Prelude.{◌≡◌, [], ◌∷◌, ◌+◌, ◌*◌, ◌≤◌, ◌<◌, length};
ghost use Rattle.definitions.specs.Limits.{variable_limit};
ghost use Rattle.definitions.specs.Values.{natural_text};
ghost use Rattle.output.specs.Written.{Written};
ghost use Rattle.type_lines.specs.Lines.{number_room, datatype_room, type_room, line_room, lines_room, output_room};
ghost use Rattle.type_lines.specs.Lines.{datatype_text, type_text, variable_line, bound_line, bound_lines, counts, bound_ones, refused_line, refused_text, accepted_text, card_text};

use definitions::{Refusal, VARIABLE_LIMIT};
use output::{put_byte, put_text};

// The most bytes that a number takes, a datatype, a type, a variable's line, the first line, and all that is printed.
const NUMBER_ROOM: usize = 3;

const DATATYPE_ROOM: usize = 12;

const TYPE_ROOM: usize = DATATYPE_ROOM + 7;

const LINE_ROOM: usize = NUMBER_ROOM + 1 + TYPE_ROOM + 1;

const FIRST_ROOM: usize = 9 + NUMBER_ROOM + 1;

pub const OUTPUT_ROOM: usize = FIRST_ROOM + VARIABLE_LIMIT * LINE_ROOM;

// A number's digits, with no zero in front.
fn put_number(n: u8, out: &mut [u8], at: usize) -> usize
    requires { at + number_room ≤ length out.old }
    ensures written { Written (natural_text n) out.old out.new at result }
    ensures upper_bound { result ≤ at + number_room }
{
    if n < 10 {
        return put_byte(b'0' + n, out, at);
    }
    if n < 100 {
        let a = put_byte(b'0' + n / 10, out, at);
        return put_byte(b'0' + n % 10, out, a);
    }
    let a = put_byte(b'0' + n / 100, out, at);
    let b = put_byte(b'0' + n / 10 % 10, out, a);
    put_byte(b'0' + n % 10, out, b)
}

// A datatype by its code.
fn put_datatype(code: u8, out: &mut [u8], at: usize) -> usize
    requires { at + datatype_room ≤ length out.old }
    ensures written { Written (datatype_text code) out.old out.new at result }
    ensures upper_bound { result ≤ at + datatype_room }
{
    match code {
        1 => put_text(b"xsd:anyURI", out, at),
        2 => put_text(b"xsd:string", out, at),
        3 => put_text(b"xsd:decimal", out, at),
        4 => put_text(b"xsd:dateTime", out, at),
        5 => put_text(b"xsd:integer", out, at),
        _ => at,
    }
}

// A type by its code.
fn put_type(code: u8, out: &mut [u8], at: usize) -> usize
    requires { at + type_room ≤ length out.old }
    ensures written { Written (type_text code) out.old out.new at result }
    ensures upper_bound { result ≤ at + type_room }
{
    if code < 9 {
        return put_datatype(code, out, at);
    }
    let a = put_text(b"range(", out, at);
    let b = put_datatype(code - 8, out, a);
    put_byte(b')', out, b)
}

// Variable number and type.
fn put_variable(v: u8, code: u8, out: &mut [u8], at: usize) -> usize
    requires { at + line_room ≤ length out.old }
    ensures written { Written (variable_line v code) out.old out.new at result }
    ensures upper_bound { result ≤ at + line_room }
{
    let a = put_number(v, out, at);
    let b = put_byte(b' ', out, a);
    let c = put_type(code, out, b);
    put_byte(b'\n', out, c)
}

// Nothing of a variable that no pair binds.
fn put_bound(v: u8, code: u8, out: &mut [u8], at: usize) -> usize
    requires { at + line_room ≤ length out.old }
    ensures written { Written (bound_line v code) out.old out.new at result }
    ensures upper_bound { result ≤ at + line_room }
{
    if code == 0 {
        return at;
    }
    put_variable(v, code, out, at)
}

// A line for each variable that a pair binds, by number.
fn put_lines(codes: &[u8], out: &mut [u8], from: usize) -> usize
    requires codes_len { length codes.now ≡ variable_limit }
    requires lines_room_in_bounds { from + lines_room ≤ length out.old }
    ensures written { Written (bound_lines 0 codes.now) out.old out.new from result }
    ensures upper_bound { result ≤ from + lines_room }
{
    let mut at = from;
    for (i, &code) in codes.iter().enumerate() {
        at = put_bound(i as u8, code, out, at);
    }
    at
}

fn one_if(code: u8) -> u8
    ensures value { result ≡ counts code }
    ensures upper_bound { result ≤ 1 }
{
    if code == 0 { 0 } else { 1 }
}

// How many variables are bound by pairs, used or not.
fn bound_ones(codes: &[u8]) -> u8
    requires { length codes.now ≡ variable_limit }
    ensures { result ≡ bound_ones codes.now }
{
    let mut n = 0;
    for &code in codes {
        n += one_if(code);
    }
    n
}

fn put_refused_line(n: u8, out: &mut [u8]) -> usize
    requires { length out.old ≡ output_room }
    ensures written { Written (refused_line n) out.old out.new 0 result }
    ensures upper_bound { result ≤ output_room }
{
    let a = put_text(b"refused ", out, 0);
    let b = put_number(n, out, a);
    put_byte(b'\n', out, b)
}

// What is printed of a refusal. Ruled out: the number of another refusal; a line without its end.
pub fn put_refused(refusal: Refusal, out: &mut [u8]) -> usize
    requires { length out.old ≡ output_room }
    ensures written { Written (refused_text refusal) out.old out.new 0 result }
    ensures upper_bound { result ≤ output_room }
{
    put_refused_line(refusal.number(), out)
}

// What is printed of the reported types. Ruled out: a count of used variables only; no line for the last variable.
pub fn put_accepted(codes: &[u8], out: &mut [u8]) -> usize
    requires codes_len { length codes.now ≡ variable_limit }
    requires out_len { length out.old ≡ output_room }
    ensures written { Written (accepted_text codes.now) out.old out.new 0 result }
    ensures upper_bound { result ≤ output_room }
{
    let a = put_text(b"accepted ", out, 0);
    let b = put_number(bound_ones(codes), out, a);
    let c = put_byte(b'\n', out, b);
    put_lines(codes, out, c)
}

// What is printed of a card by its refusal's number, 0 for none. Ruled out: types printed of a card that is refused; a card refused with 0.
pub fn put_card(refusal: u8, codes: &[u8], out: &mut [u8]) -> usize
    requires codes_len { length codes.now ≡ variable_limit }
    requires out_len { length out.old ≡ output_room }
    ensures written { Written (card_text refusal codes.now) out.old out.new 0 result }
    ensures upper_bound { result ≤ output_room }
{
    if refusal != 0 {
        return put_refused_line(refusal, out);
    }
    put_accepted(codes, out)
}
