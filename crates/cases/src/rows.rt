// Rows of words in one text, so that the cases of a topic are one literal.
ghost use Rattle.std.specs.Prelude.{◌≡◌, ◌≢◌, ℕ, ◌+◌, ◌≤◌, ◌<◌, min, length, slice_index};

// Where a byte stands first, from an offset to another; the second offset where it does not.
// Ruled out: the second offset in any case; a place past the first.
pub fn find(rows: &[u8], at: usize, last: usize, ending: u8) -> usize
    requires at_le_last { at ≤ last }
    requires last_in_bounds { last ≤ length rows.now }
    ensures from { at ≤ result }
    ensures to { result ≤ last }
    ensures before { (k : ℕ) → at ≤ k → k < result → slice_index rows.now k ≢ ending }
    ensures there { result < last → slice_index rows.now result ≡ ending }
{
    for i in at..last {
        if rows[i] == ending {
            return i;
        }
    }
    last
}

// The end of the word at an offset: where its ending byte stands, and at most so many bytes on.
// Ruled out: the ending byte in the word; a word wider than its field.
pub fn word_end(rows: &[u8], at: usize, ending: u8, width: usize) -> usize
    requires { at ≤ length rows.now }
    ensures { (at ≤ result) × (result ≤ at + width) × (result ≤ length rows.now) }
{
    let last = rows.len();
    let found = find(rows, at, last, ending);
    at + (found - at).min(width)
}

// Where the next row begins. Ruled out: the ending byte as its first; an offset past the rows.
pub fn after(rows: &[u8], end: usize) -> usize
    requires { end ≤ length rows.now }
    ensures { result ≡ min (end + 1) (length rows.now) }
{
    (end + 1).min(rows.len())
}

// Where the next word of a row begins. Ruled out: an offset before the last word's end; one past the rows.
pub fn within(rows: &[u8], end: usize) -> usize
    requires { end ≤ length rows.now }
    ensures { (end ≤ result) × (result ≤ length rows.now) }
{
    after(rows, end)
}
