// Patterns, matched row by row from the back of a text, in time proportional to pattern times text.
ghost use Rattle.std.specs.Prelude.{◌≡◌, List, Bool, ◌+◌, ◌<◌, ◌≤◌, length, drop};
ghost use Rattle.std.proofs.Math.Option.{some};
ghost use Rattle.definitions.specs.Limits.{pattern_width};
ghost use Rattle.definitions.specs.Bytes.{unfilled};
ghost use Rattle.definitions.specs.Terms.{Text};
ghost use Rattle.definitions.specs.Text.{Piece, pieces_of, Pattern, pattern_of};
ghost use Rattle.definitions.specs.Text as text;
ghost use Rattle.matching.specs.Matching.{fits, ahead, hits, RowFrom, Finds};

use definitions::PATTERN_WIDTH;

const STAR: u8 = b'*';

const DOT: u8 = b'.';

const CARET: u8 = b'^';

const DOLLAR: u8 = b'$';

// The places of a pattern, its end among them.
const PLACES: usize = PATTERN_WIDTH + 1;

// The length of a field's text. Ruled out: the field's width; the zeros counted.
pub fn text_length(field: &[u8]) -> usize
    ensures { result ≡ length (unfilled field.now) }
{
    for (i, &b) in field.iter().enumerate() {
        if b == 0 {
            return i;
        }
    }
    field.len()
}

// Whether a byte of a pattern stands for a byte of a text; 0 is the text's end.
fn hit(a: u8, b: u8) -> bool
    ensures { result ≡ hits a b }
{
    b != 0 && (a == DOT || a == b)
}

// One place of a row: whether the pattern from k on fits the text that begins with b, from the row of the text after b
// and from the places after k of the row itself.
fn cell(
    pattern: &[u8],
    size: usize,
    k: usize,
    b: u8,
    later: [bool; PLACES],
    row: [bool; PLACES],
) -> bool
    requires pattern_len { length pattern.now ≡ pattern_width }
    requires size_value { size ≡ length (unfilled pattern.now) }
    requires k_lt_size { (k < size) × (size ≤ pattern_width) }
    ensures { (t : Text) → ((b ≡ 0 → ⊥) → RowFrom pattern.now 0 t later) → RowFrom pattern.now (k + 1) (ahead b t) row → (r : List Piece × Bool)
        → pieces_of (unfilled (drop k pattern.now)) ≡ some r → result ≡ fits r.0 r.1 (ahead b t) }
{
    let a = pattern[k];
    let next = k + 1;
    let found = hit(a, b);
    if next == size {
        if a == DOLLAR {
            return b == 0;
        }
        return found & later[next];
    }
    if pattern[next] == STAR {
        let past = next + 1;
        let without = row[past];
        return without | (found & later[k]);
    }
    found & later[next]
}

// The row of a text that begins with b, from the row of the text after b; where b is 0, the row of the text's end.
fn next_row(pattern: &[u8], size: usize, b: u8, later: [bool; PLACES]) -> [bool; PLACES]
    requires pattern_len { length pattern.now ≡ pattern_width }
    requires size_value { size ≡ length (unfilled pattern.now) }
    requires size_le_pattern_width { size ≤ pattern_width }
    ensures { (t : Text) → ((b ≡ 0 → ⊥) → RowFrom pattern.now 0 t later) → RowFrom pattern.now 0 (ahead b t) result }
{
    let mut row = [false; PLACES];
    row[size] = true;
    for k in (0..size).rev() {
        row[k] = cell(pattern, size, k, b, later, row);
    }
    row
}

// What a pattern finds in a text: whether it fits from the text's start on, and whether it fits anywhere.
#[derive(Clone, Copy)]
struct Found {
    front: bool,
    anywhere: bool,
}

// The pattern from a place on, against the text of a field.
fn search(pattern: &[u8], start: usize, field: &[u8]) -> Found
    requires pattern_len { length pattern.now ≡ pattern_width }
    requires start_in_bounds { start ≤ length (unfilled pattern.now) }
    ensures { (r : List Piece × Bool) → pieces_of (unfilled (drop start pattern.now)) ≡ some r → Finds r (unfilled field.now) result.front result.anywhere }
{
    let size = text_length(pattern);
    let mut row = next_row(pattern, size, 0, [false; PLACES]);
    let mut found = row[start];
    for i in (0..text_length(field)).rev() {
        row = next_row(pattern, size, field[i], row);
        found |= row[start];
    }
    Found {
        front: row[start],
        anywhere: found,
    }
}

// Whether a pattern, in its field, accepts the text of a field.
// Ruled out: a* that wants an a; a pattern with $ that fits before the end.
pub fn accepts(pattern: &[u8], field: &[u8]) -> bool
    requires { length pattern.now ≡ pattern_width }
    ensures { (p : Pattern) → pattern_of pattern.now ≡ some p → result ≡ text.accepts p (unfilled field.now) }
{
    if pattern[0] == CARET {
        search(pattern, 1, field).front
    } else {
        search(pattern, 0, field).anywhere
    }
}
