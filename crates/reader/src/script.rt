// Reading the script in prefix order: each function takes the offset of a record and how many levels of records may
// still be used, and gives the offset after the record and its children.
ghost use Rattle.std.specs.Prelude.{◌≡◌, ◌+◌, ◌<◌, ◌≤◌, ◌⊎◌, ◌&&◌, ltb, length};
ghost use Rattle.std.specs.Option.{IfSome, IfNone};
ghost use Rattle.definitions.specs.Bytes.{byte, whole};
ghost use Rattle.definitions.specs.Limits.{block_width, pair_limit};
ghost use Rattle.definitions.specs.Reading.{read_name, read_expr, read_cond, read_query, read_script, binders_at};
ghost use Rattle.reader.specs.Records.{Here};
ghost use Rattle.laws.specs.ReadAnswers.{next_of, is_some};

use crate::pairs::pairs_ok;
use definitions::{
    COUNT_OFFSET, LANG_MATCHES_TEXT_OFFSET, PAIRS_OFFSET, QUERY_OFFSET, REGEX_TEXT_OFFSET,
    VARIABLE_LIMIT,
};
use fields::numbers::word_at;
use patterns::{pattern_ok, range_ok};

// The kind of the record at an offset, if there is a level and a byte left.
fn kind_at(script: &[u8], at: usize, left: u8) -> Option<u8>
    ensures some { IfSome result (λ kind. Here script.now at left kind) }
    ensures none { IfNone result ((left ≡ 0) ⊎ (length script.now ≤ at)) }
{
    if left == 0 {
        return None;
    }
    script.get(at).copied()
}

// A name: 31 a variable, 32 a constant. Ruled out: a variable past the last taken; a term number past the table taken.
pub fn read_name(script: &[u8], terms: usize, at: usize, left: u8) -> Option<usize>
    ensures { result ≡ next_of (read_name script.now terms left at) }
{
    let kind = kind_at(script, at, left)?;
    let room = script.len() - at;
    match kind {
        0x31 if 2 <= room && (script[at + 1] as usize) < VARIABLE_LIMIT => Some(at + 2),
        0x32 if 3 <= room && word_at(script, at + 1) < terms => Some(at + 3),
        _ => None,
    }
}

// An expression: a name, 41 now, 42 str, 43 abs, 44 plus, 45 minus.
// Ruled out: the second part of a sum left unread; an expression one level too deep taken.
pub fn read_expr(script: &[u8], terms: usize, at: usize, left: u8) -> Option<usize>
    ensures { result ≡ next_of (read_expr script.now terms left at) }
{
    match kind_at(script, at, left)? {
        0x31..=0x32 => read_name(script, terms, at, left),
        0x41 => Some(at + 1),
        0x42..=0x43 => read_expr(script, terms, at + 1, left - 1),
        0x44..=0x45 => {
            let second = read_expr(script, terms, at + 1, left - 1)?;
            read_expr(script, terms, second, left - 1)
        }
        _ => None,
    }
}

// A boolean: 50 false, 51 true, 52 or, 53 and, 54 not, 55 regex, 56 lang_matches, 57 equal, 58 less.
// Ruled out: a bad pattern taken; a boolean where an expression must stand.
pub fn read_cond(script: &[u8], terms: usize, at: usize, left: u8) -> Option<usize>
    ensures { result ≡ next_of (read_cond script.now terms left at) }
{
    let kind = kind_at(script, at, left)?;
    let room = script.len() - at;
    match kind {
        0x50..=0x51 => Some(at + 1),
        0x52..=0x53 => {
            let second = read_cond(script, terms, at + 1, left - 1)?;
            read_cond(script, terms, second, left - 1)
        }
        0x54 => read_cond(script, terms, at + 1, left - 1),
        0x55 if REGEX_TEXT_OFFSET <= room && pattern_ok(script, at + 1) => {
            read_expr(script, terms, at + REGEX_TEXT_OFFSET, left - 1)
        }
        0x56 if LANG_MATCHES_TEXT_OFFSET <= room && range_ok(script, at + 1) => {
            read_expr(script, terms, at + LANG_MATCHES_TEXT_OFFSET, left - 1)
        }
        0x57..=0x58 => {
            let second = read_expr(script, terms, at + 1, left - 1)?;
            read_expr(script, terms, second, left - 1)
        }
        _ => None,
    }
}

// A query: 61 pattern, 62 both, 63 union, 64 filter, 65 empty.
// Ruled out: a pattern of three names taken; a filter of a query taken.
pub fn read_query(script: &[u8], terms: usize, at: usize, left: u8) -> Option<usize>
    ensures { result ≡ next_of (read_query script.now terms left at) }
{
    match kind_at(script, at, left)? {
        0x61 => {
            let subject = read_name(script, terms, at + 1, left - 1)?;
            let property = read_name(script, terms, subject, left - 1)?;
            let object = read_name(script, terms, property, left - 1)?;
            read_name(script, terms, object, left - 1)
        }
        0x62..=0x63 => {
            let second = read_query(script, terms, at + 1, left - 1)?;
            read_query(script, terms, second, left - 1)
        }
        0x64 => read_cond(script, terms, at + 1, left - 1),
        0x65 => Some(at + 1),
        _ => None,
    }
}

// Whether the body of a block is good: its bytes there, mode 0 or 1, and its pairs.
fn block_ok(script: &[u8], at: usize) -> bool
    requires { at < length script.now }
    ensures { result ≡ ((whole script.now at block_width && ltb (byte script.now (at + 1)) 2)
        && is_some (binders_at pair_limit (byte script.now (at + 2)) script.now (at + 3))) }
{
    QUERY_OFFSET <= script.len() - at
        && script[at + 1] < 2
        && pairs_ok(script, at + PAIRS_OFFSET, script[at + COUNT_OFFSET])
}

// A script: 71 success, 72 from named, 73 block, 74 sequence.
// Ruled out: a block of mode 2 taken; a sequence whose second script is missing taken.
pub fn read_script(script: &[u8], terms: usize, at: usize, left: u8) -> Option<usize>
    ensures { result ≡ next_of (read_script script.now terms left at) }
{
    match kind_at(script, at, left)? {
        0x71 => Some(at + 1),
        0x72 => {
            let second = read_name(script, terms, at + 1, left - 1)?;
            read_script(script, terms, second, left - 1)
        }
        0x73 if block_ok(script, at) => {
            let second = read_query(script, terms, at + QUERY_OFFSET, left - 1)?;
            read_script(script, terms, second, left - 1)
        }
        0x74 => {
            let second = read_script(script, terms, at + 1, left - 1)?;
            read_script(script, terms, second, left - 1)
        }
        _ => None,
    }
}
