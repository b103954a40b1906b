// Records at an offset: the offset after one, or that it is malformed.
#![tactic(auto)]

ghost use Rattle.std.specs.Prelude.{◌≡◌};
ghost use Rattle.definitions.specs.Terms.{of_term_kind, uri_at, read_term, read_entry, read_triple};
ghost use Rattle.fields.specs.Answers.{has_room, body_from};
ghost use Rattle.laws.specs.ReadAnswers.{next_of};

use definitions::{ENTRY_WIDTH, TEXT_WIDTH};
use term_bodies::bodies::{body_ok, body_width};
use term_bodies::texts::uri_ok;

// Whether so many bytes follow from an offset on. Ruled out: a sum that wraps; one byte too many.
pub fn has_room(s: &[u8], at: usize, width: usize) -> bool
    ensures { result ≡ has_room s.now at width }
{
    at <= s.len() && width <= s.len() - at
}

// A URI body. Ruled out: an empty URI; a field cut off by the end.
pub fn read_uri(s: &[u8], at: usize) -> Option<usize>
    ensures { result ≡ next_of (uri_at s.now at) }
{
    if !has_room(s, at, TEXT_WIDTH) {
        return None;
    }
    let end = at + TEXT_WIDTH;
    uri_ok(&s[at..end]).then_some(end)
}

// A body of a term record's kind. Ruled out: a body one byte short; a kind that is no term's.
pub fn read_body(kind: u8, s: &[u8], at: usize) -> Option<usize>
    ensures { result ≡ next_of (body_from (of_term_kind kind) s.now at) }
{
    let width = body_width(kind);
    if width == 0 || !has_room(s, at, width) {
        return None;
    }
    let end = at + width;
    body_ok(kind, &s[at..end]).then_some(end)
}

// A term record, 11 to 15. Ruled out: kind 16; a number past its limits.
pub fn read_term(s: &[u8], at: usize) -> Option<usize>
    ensures { result ≡ next_of (read_term s.now at) }
{
    if s.len() <= at {
        return None;
    }
    read_body(s[at], s, at + 1)
}

// A schema record, 21. Ruled out: datatype 6; a record without its datatype byte.
pub fn read_entry(s: &[u8], at: usize) -> Option<usize>
    ensures { result ≡ next_of (read_entry s.now at) }
{
    if !has_room(s, at, ENTRY_WIDTH) {
        return None;
    }
    let start = at + 1;
    let end = start + TEXT_WIDTH;
    if s[at] != 0x21 || !uri_ok(&s[start..end]) {
        return None;
    }
    match s[end] {
        1..=5 => Some(end + 1),
        _ => None,
    }
}

// A page record, 81 to 85. Ruled out: kind 86; an object read as another kind's.
pub fn read_triple(s: &[u8], at: usize) -> Option<usize>
    ensures { result ≡ next_of (read_triple s.now at) }
{
    if s.len() <= at {
        return None;
    }
    let kind = s[at];
    match kind {
        0x81..=0x85 => {
            let property = read_uri(s, at + 1)?;
            let object = read_uri(s, property)?;
            read_body(kind - 0x70, s, object)
        }
        _ => None,
    }
}
