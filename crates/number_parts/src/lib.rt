// The parts of a number's text: sign, digits, fraction and exponent.
#![tactic(auto)]

ghost use Rattle.std.specs.Prelude.{◌≡◌, ◌+◌, ◌-◌, ◌<◌, ◌≤◌, T, length};
ghost use Rattle.std.specs.Char.{is_ascii_digit};
ghost use Rattle.std.specs.List.{take_while};
ghost use Rattle.definitions.specs.Bytes.{byte};
ghost use Rattle.definitions.specs.Numerals.{exponent_digits, is_digit, after_sign, digits_at, fraction_at, exponent_at, natural_of};
ghost use Rattle.laws.specs.ReadAnswers.{next_of};
ghost use Rattle.number_parts.specs.Parts.{Digits, places_limit, after_point, shift_of};

use definitions::NUMBER_TEXT_LIMIT;

// The digits of an exponent.
const EXPONENT_DIGITS: usize = 2;

// By how many places an exponent moves the point to the right and to the left, with the offset after it.
#[derive(Clone, Copy)]
pub struct Shift {
    pub up: usize,
    pub down: usize,
    pub after: usize,
}

// The byte at an offset, 0 past the end.
pub fn byte_at(s: &[u8], at: usize) -> u8
    ensures { result ≡ byte s.now at }
{
    s.get(at).copied().unwrap_or(0)
}

// Past a sign, if there is one.
pub fn after_sign(s: &[u8], at: usize) -> usize
    ensures { result ≡ after_sign s.now at }
{
    match byte_at(s, at) {
        b'+' | b'-' => at + 1,
        _ => at,
    }
}

// How many digits a text begins with.
fn count_digits(s: &[u8]) -> usize
    ensures { result ≡ length (take_while is_ascii_digit s.now) }
{
    s.iter().take_while(|b| b.is_ascii_digit()).count()
}

// One digit at least, and at most so many. Ruled out: none at all; the last ones left for what follows.
pub fn read_digits(s: &[u8], at: usize, most: usize) -> Option<usize>
    ensures { result ≡ next_of (digits_at most s.now at) }
{
    let count = count_digits(s.get(at..)?);
    if count == 0 || most < count {
        return None;
    }
    Some(at + count)
}

// A point with digits after it, if there is one. Ruled out: 5. taken for a number; a comma for the point.
pub fn read_fraction(s: &[u8], at: usize) -> Option<usize>
    ensures { result ≡ next_of (fraction_at s.now at) }
{
    if byte_at(s, at) != b'.' {
        return Some(at);
    }
    read_digits(s, at + 1, NUMBER_TEXT_LIMIT)
}

// Where the digits of a fraction begin that ends at an offset.
pub fn after_point(point: usize, tail: usize) -> usize
    ensures { result ≡ after_point point tail }
{
    if point < tail { point + 1 } else { point }
}

// The number that a digit writes.
pub fn digit(b: u8) -> u64
    requires { T (is_digit b) }
    ensures { (result ≡ b - 0x30) × (result < 10) }
{
    u64::from(b - b'0')
}

// The number that one or two digits write.
fn small(digits: &[u8]) -> u64
    requires digits { Digits digits.now }
    requires digits_nonzero { (0 < length digits.now) × (length digits.now ≤ exponent_digits) }
    ensures { (result ≡ natural_of digits.now) × (result < places_limit) }
{
    let first = digit(digits[0]);
    if digits.len() == 1 {
        return first;
    }
    first * 10 + digit(digits[1])
}

// e or E with an optional sign and one or two digits, if it is there. Ruled out: 1e123 taken for a number; e-5 for e5.
pub fn read_exponent(s: &[u8], at: usize) -> Option<Shift>
    ensures { result ≡ shift_of (exponent_at s.now at) }
{
    match byte_at(s, at) {
        b'e' | b'E' => {
            let sign = at + 1;
            let from = after_sign(s, sign);
            let after = read_digits(s, from, EXPONENT_DIGITS)?;
            let places = small(&s[from..after]) as usize;
            if byte_at(s, sign) == b'-' {
                Some(Shift {
                    up: 0,
                    down: places,
                    after,
                })
            } else {
                Some(Shift {
                    up: places,
                    down: 0,
                    after,
                })
            }
        }
        _ => Some(Shift {
            up: 0,
            down: 0,
            after: at,
        }),
    }
}
