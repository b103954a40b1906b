// A text in a field, written from the front.
ghost use Rattle.std.specs.Prelude.{[], ◌∷◌, ◌+◌, ◌≤◌, ◌<◌};
ghost use Rattle.definitions.specs.Limits.{text_width};
ghost use Rattle.definitions.specs.Calendar as calendar;
ghost use Rattle.definitions.specs.Values.{short_digits, fraction_text};
ghost use Rattle.strings.specs.Lines.{Puts, last_digit};

use definitions::TEXT_WIDTH;

#[derive(Clone, Copy)]
pub struct Line {
    pub bytes: [u8; TEXT_WIDTH],
    pub len: usize,
}

pub const EMPTY: Line = Line {
    bytes: [0; TEXT_WIDTH],
    len: 0,
};

// A byte at the end. Ruled out: a byte over the last one; a length that stays.
pub fn push(mut line: Line, b: u8) -> Line
    requires { line.len < text_width }
    ensures { Puts line result (b ∷ []) }
{
    line.bytes[line.len] = b;
    line.len += 1;
    line
}

// The last digit of a number. Ruled out: the first digit; the digit as a number from 0 to 9.
pub fn push_digit(line: Line, n: u64) -> Line
    requires { line.len < text_width }
    ensures { Puts line result (last_digit n ∷ []) }
{
    push(line, b'0' + (n % 10) as u8)
}

// The last count digits of a number. Ruled out: 7 for 07; the digits from the back.
pub fn digits(line: Line, count: u8, n: u64) -> Line
    requires { line.len + count ≤ text_width }
    ensures { Puts line result (calendar.digits count n) }
{
    if count == 0 {
        return line;
    }
    let front = digits(line, count - 1, n / 10);
    push_digit(front, n)
}

// A number's digits, at most left of them, with no needless zero in front. Ruled out: 007; no digit at all for 0.
pub fn natural(line: Line, left: u8, n: u64) -> Line
    requires { line.len + left ≤ text_width }
    ensures { Puts line result (short_digits left n) }
{
    if left == 0 {
        return line;
    }
    if n < 10 {
        return push_digit(line, n);
    }
    let front = natural(line, left - 1, n / 10);
    push_digit(front, n)
}

// A fraction of count digits, with at least one digit and no needless zero. Ruled out: 50 for 5; 5 for 05.
pub fn fraction(line: Line, count: u8, m: u64) -> Line
    requires le_count { 1 ≤ count }
    requires count_bound { line.len + count ≤ text_width }
    ensures { Puts line result (fraction_text count m) }
{
    if count == 1 {
        return digits(line, 1, m);
    }
    if m % 10 == 0 {
        return fraction(line, count - 1, m / 10);
    }
    digits(line, count, m)
}
