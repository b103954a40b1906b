// Where the records of a script end, in one table for a call, so that a record is stepped over by one look.
#![tactic(auto)]

ghost use Rattle.std.specs.Prelude.{◌≡◌, ◌≤◌, ◌<◌, length};
ghost use Rattle.definitions.specs.Limits.{script_limit};
ghost use Rattle.laws.specs.Ends.{extent_of, after_in, end_at, EndsLent};

use definitions::{LANG_MATCHES_TEXT_OFFSET, REGEX_TEXT_OFFSET};

// How many bytes a record has before its children.
fn width(kind: u8) -> usize
    ensures { result ≡ (extent_of kind).width }
{
    match kind {
        0x31 => 2,
        0x32 => 3,
        0x55 => REGEX_TEXT_OFFSET,
        0x56 => LANG_MATCHES_TEXT_OFFSET,
        _ => 1,
    }
}

// How many children it has.
fn children(kind: u8) -> usize
    ensures { result ≡ (extent_of kind).children }
{
    // a digit for each kind from 40 to 65
    let digits = b"00112200000000000022111220000000042210";
    match kind {
        0x40..=0x65 => (digits[(kind - 0x40) as usize] - b'0') as usize,
        _ => 0,
    }
}

// The offset after the record at an offset of a script of n bytes. Ruled out: the offset itself; a number read past the script.
pub fn after(ends: &[u16], n: usize, at: usize) -> usize
    requires { n ≤ length ends.now }
    ensures { result ≡ after_in ends.now n at }
{
    if at < n { ends[at] as usize } else { at }
}

// Where the last child of the record at an offset ends, by the numbers after it.
fn end_at(script: &[u8], ends: &[u16], at: usize) -> usize
    requires script_in_bounds { length script.now ≤ length ends.now }
    requires ends_len_bound { length ends.now ≤ script_limit }
    requires at_in_bounds { at < length script.now }
    ensures { result ≡ end_at script.now ends.now at }
{
    let kind = script[at];
    let mut end = at + width(kind);
    for _child in 0..children(kind) {
        end = after(ends, script.len(), end);
    }
    end
}

// The table of a script, from its last byte to its first. Ruled out: a sum that ends with its first summand; the body of a pattern left out.
pub fn fill_ends(script: &[u8], ends: &mut [u16])
    requires script_in_bounds { length script.now ≤ length ends.old }
    requires ends_len_bound { length ends.old ≤ script_limit }
    ensures { EndsLent script.now ends.new }
{
    for at in (0..script.len()).rev() {
        ends[at] = end_at(script, ends, at) as u16;
    }
}
