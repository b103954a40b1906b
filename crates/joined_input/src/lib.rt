// The joined input: where its terms and its schema end.
#![tactic(auto)]

ghost use Rattle.std.specs.Prelude.{◌≡◌, ◌+◌, ◌≤◌, length};
ghost use Rattle.definitions.specs.Limits.{tag_width, text_width, printer_limit};
ghost use Rattle.definitions.specs.Printer.{entry_body, end_from, terms_end};

use definitions::ENTRY_WIDTH;
use term_bodies::bodies::body_width;

// The terms end before the first kind outside 11 to 15; a record cut off by the end of the input is theirs.
// Ruled out: an end inside a record's body; a last record left to the schema because it is cut off.
pub fn terms_end(s: &[u8]) -> usize
    requires { length s.now ≤ printer_limit }
    ensures value { result ≡ terms_end s.now }
    ensures upper_bound { result ≤ length s.now + (tag_width + text_width) }
{
    let mut at = 0;
    while at < s.len() {
        let width = body_width(s[at]);
        if width == 0 {
            return at;
        }
        let next = at + 1 + width;
        at = next;
    }
    at
}

// The schema ends before the first kind other than 21.
// Ruled out: an entry without its datatype byte; a schema that ends at its first entry.
pub fn schema_end(s: &[u8], from: usize) -> usize
    requires s_len_bound { length s.now ≤ printer_limit }
    requires from_in_bounds { from ≤ length s.now + (tag_width + text_width) }
    ensures value { result ≡ end_from entry_body (length s.now) s.now from }
    ensures lower_bound { from ≤ result }
{
    let mut at = from;
    while at < s.len() {
        if s[at] != 0x21 {
            return at;
        }
        let next = at + ENTRY_WIDTH;
        at = next;
    }
    at
}
