// The term of a numeral. Its digits, before the point and after it, are lent as two texts. Nothing here wraps: a number is at most 10^18 before it
// is multiplied by ten.
#![tactic(auto)]

ghost use Rattle.definitions.specs.declared.Refusal.TheVariants.{NoSuchNumber};
ghost use Rattle.std.specs.Prelude.{◌≡◌, ◌++◌, ◌+◌, ◌-◌, ◌≤◌, ◌<◌, length};
ghost use Rattle.definitions.specs.Limits.{number_text_limit, decimal_limit};
ghost use Rattle.definitions.specs.Bytes.{signed};
ghost use Rattle.definitions.specs.Numbers.{term_read};
ghost use Rattle.definitions.specs.Numerals.{with_sign, natural_of};
ghost use Rattle.definitions.specs.Result.{given};
ghost use Rattle.number_parts.specs.Parts.{Digits, places_limit};
ghost use Rattle.number_terms.specs.Amounts.{digit_of, front, rest_zero, amount_of, whole_amount, term_with};

use definitions::{DECIMAL_LIMIT, INTEGER_LIMIT, Number, NumberAnswer, Refusal};
use number_parts::digit;

// A decimal counts millionths, the sixth digit after the point.
const FRACTION_DIGITS: usize = 6;

// The digit at a place, 0 past the last.
fn digit_at(whole: &[u8], fraction: &[u8], i: usize) -> u64
    requires { Digits (whole.now ++ fraction.now) }
    ensures { (result ≡ digit_of (whole.now ++ fraction.now) i) × (result < 10) }
{
    if i < whole.len() {
        return digit(whole[i]);
    }
    let j = i - whole.len();
    if j < fraction.len() {
        return digit(fraction[j]);
    }
    0
}

// The number that the first digits write, if it is within a limit. Ruled out: a number that wraps; the digits past the last left out.
fn first_digits(whole: &[u8], fraction: &[u8], keep: usize, limit: u64) -> Option<u64>
    requires digits { Digits (whole.now ++ fraction.now) }
    requires limit_le_decimal_limit { limit ≤ decimal_limit }
    ensures { result ≡ amount_of limit (front (whole.now ++ fraction.now) keep) }
{
    let mut n = 0;
    for i in 0..keep {
        n = n * 10 + digit_at(whole, fraction, i);
        if limit < n {
            return None;
        }
    }
    Some(n)
}

// Whether the digits after the first are all 0. Ruled out: 1e-7 read as 0; the last digit left out.
fn rest_is_zero(whole: &[u8], fraction: &[u8], keep: usize) -> bool
    requires { Digits (whole.now ++ fraction.now) }
    ensures { result ≡ rest_zero (whole.now ++ fraction.now) keep }
{
    let count = whole.len() + fraction.len();
    for i in keep..count {
        if digit_at(whole, fraction, i) != 0 {
            return false;
        }
    }
    true
}

// The number that the first digits write, where no other digit counts.
fn whole_amount(whole: &[u8], fraction: &[u8], keep: usize, limit: u64) -> Option<u64>
    requires digits { Digits (whole.now ++ fraction.now) }
    requires limit_le_decimal_limit { limit ≤ decimal_limit }
    ensures { result ≡ whole_amount limit (whole.now ++ fraction.now) keep }
{
    if !rest_is_zero(whole, fraction, keep) {
        return None;
    }
    first_digits(whole, fraction, keep, limit)
}

// How many digits write the millionths: those before the point as the exponent moves it, and six more.
fn kept(before: usize, up: usize, down: usize) -> usize
    requires { (before ≤ number_text_limit) × (up < places_limit) × (down < places_limit) }
    ensures { result ≡ before + (6 + up) - down }
{
    (before + FRACTION_DIGITS + up).saturating_sub(down)
}

// A number with its sign, in two's complement. Ruled out: minus zero below zero; the sign left out.
fn with_sign(minus: bool, n: u64) -> u64
    requires { n ≤ decimal_limit }
    ensures { signed result ≡ with_sign minus n }
{
    if n == 0 {
        return 0;
    }
    if minus {
        return u64::MAX - (n - 1);
    }
    n
}

// The term of a numeral by its parts, plain where it has neither point nor exponent.
// Ruled out: 1000000000001 as an integer; a decimal that counts units.
pub fn term_of(
    whole: &[u8],
    fraction: &[u8],
    minus: bool,
    plain: bool,
    up: usize,
    down: usize,
) -> NumberAnswer
    requires digits { Digits (whole.now ++ fraction.now) }
    requires up_lt_places_limit { (up < places_limit) × (down < places_limit) }
    ensures { term_read result ≡ given NoSuchNumber (term_with plain minus (natural_of (whole.now ++ fraction.now)) up (length fraction.now + down)) }
{
    if plain {
        let count = whole.len() + fraction.len();
        let Some(n) = whole_amount(whole, fraction, count, INTEGER_LIMIT) else {
            return Err(Refusal::NoSuchNumber);
        };
        return Ok(Number::Integer(with_sign(minus, n)));
    }
    let keep = kept(whole.len(), up, down);
    let Some(n) = whole_amount(whole, fraction, keep, DECIMAL_LIMIT) else {
        return Err(Refusal::NoSuchNumber);
    };
    Ok(Number::Decimal(with_sign(minus, n)))
}
