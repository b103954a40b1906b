// Numbers as makers print them: a text of 1 to 40 bytes read as an integer or a decimal.
#![tactic(auto)]

ghost use Rattle.std.specs.Prelude.{◌≡◌};
ghost use Rattle.definitions.specs.Calls.{number_call};
ghost use Rattle.definitions.specs.Numbers.{term_read};

use definitions::{NUMBER_TEXT_LIMIT, NumberAnswer, Refusal};

// The term that a text reads as: 16, then 17.
// Ruled out: 41 digits told as 17; 1e123 taken for a number; 1e-7 read as 0; minus zero below zero.
pub fn read_number(text: &[u8]) -> NumberAnswer
    ensures { term_read result ≡ number_call text.now }
{
    if NUMBER_TEXT_LIMIT < text.len() {
        return Err(Refusal::BadNumberText);
    }
    let start = number_parts::after_sign(text, 0);
    let Some(point) = number_parts::read_digits(text, start, NUMBER_TEXT_LIMIT) else {
        return Err(Refusal::BadNumberText);
    };
    let Some(tail) = number_parts::read_fraction(text, point) else {
        return Err(Refusal::BadNumberText);
    };
    let Some(shift) = number_parts::read_exponent(text, tail) else {
        return Err(Refusal::BadNumberText);
    };
    if shift.after != text.len() {
        return Err(Refusal::BadNumberText);
    }
    let minus = number_parts::byte_at(text, 0) == b'-';
    let plain = point == shift.after;
    let first = number_parts::after_point(point, tail);
    number_terms::term_of(
        &text[start..point],
        &text[first..tail],
        minus,
        plain,
        shift.up,
        shift.down,
    )
}
