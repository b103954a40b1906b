// Patterns and language ranges: text fields filled with zeros, checked byte by byte.
#![tactic(auto)]

ghost use Rattle.std.specs.Prelude.{◌≡◌, ◌+◌, ◌-◌, ◌≤◌, length};
ghost use Rattle.definitions.specs.Limits.{pattern_width, language_range_width};
ghost use Rattle.definitions.specs.Bytes.{part, all_zero};
ghost use Rattle.definitions.specs.Terms.{tag_byte};
ghost use Rattle.definitions.specs.Text.{no_literal, pattern_of, language_range_of};
ghost use Rattle.laws.specs.ReadAnswers.{is_some};
ghost use Rattle.patterns.specs.Fields.{is_literal, may_follow, are_pieces};

use definitions::{LANGUAGE_RANGE_WIDTH, PATTERN_WIDTH};

// Whether the bytes from an offset up to an end are all zero. Ruled out: the first byte alone tested; the last left out.
pub fn zeros(s: &[u8], from: usize, end: usize) -> bool
    requires { end ≤ length s.now }
    ensures { result ≡ all_zero (part s.now from (end - from)) }
{
    for i in from..end {
        if s[i] != 0 {
            return false;
        }
    }
    true
}

// Whether a byte makes a pattern bad or has a place of its own in one.
fn no_literal(b: u8) -> bool
    ensures { result ≡ no_literal b }
{
    b"\\|?+()[]{}*^$".contains(&b)
}

// Whether a byte stands for itself in a pattern, or is `.`.
fn literal(b: u8) -> bool
    ensures { result ≡ is_literal b }
{
    (0x20 <= b) & (b <= 0x7E) & !no_literal(b)
}

// Whether a byte may stand next in a pattern: `*` only after a literal byte or `.`.
fn may_follow(atom: bool, b: u8) -> bool
    ensures { result ≡ may_follow atom b }
{
    if b == b'*' { atom } else { literal(b) }
}

// Whether the bytes from an offset up to an end are good pieces of a pattern, filled with zeros.
fn pieces_ok(s: &[u8], from: usize, end: usize) -> bool
    requires { end ≤ length s.now }
    ensures { result ≡ are_pieces (part s.now from (end - from)) }
{
    // whether a `*` may stand next
    let mut atom = false;
    for i in from..end {
        let b = s[i];
        if b == 0 {
            return zeros(s, i, end);
        }
        if b == b'$' {
            return zeros(s, i + 1, end);
        }
        if !may_follow(atom, b) {
            return false;
        }
        atom = b != b'*';
    }
    true
}

// Whether the bytes of a pattern's width at an offset are a good pattern. Ruled out: a `*` let stand first; a byte after `$` let pass.
pub fn pattern_ok(s: &[u8], at: usize) -> bool
    requires { at + pattern_width ≤ length s.now }
    ensures { result ≡ is_some (pattern_of (part s.now at pattern_width)) }
{
    let end = at + PATTERN_WIDTH;
    if s[at] == b'^' {
        return pieces_ok(s, at + 1, end);
    }
    pieces_ok(s, at, end)
}

// Whether a byte is a small letter or a hyphen.
fn tag_byte(b: u8) -> bool
    ensures { result ≡ tag_byte b }
{
    matches!(b, b'a'..=b'z' | b'-')
}

// Whether the bytes of a language range's width at an offset are a good language range.
// Ruled out: hyphens with no letter taken; a `*` let stand right after a letter.
pub fn range_ok(s: &[u8], at: usize) -> bool
    requires { at + language_range_width ≤ length s.now }
    ensures { result ≡ is_some (language_range_of (part s.now at language_range_width)) }
{
    let end = at + LANGUAGE_RANGE_WIDTH;
    if s[at] == b'*' {
        return zeros(s, at + 1, end);
    }
    let mut letter = false;
    let mut hyphen = false;
    for i in at..end {
        let b = s[i];
        if b == 0 {
            return letter & zeros(s, i, end);
        }
        if b == b'*' {
            return letter & hyphen & zeros(s, i + 1, end);
        }
        if !tag_byte(b) {
            return false;
        }
        hyphen = b == b'-';
        letter |= !hyphen;
    }
    letter
}
