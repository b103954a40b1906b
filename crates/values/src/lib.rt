// Document 01, "Values": what expressions give, and arithmetic.
#![tactic(auto)]

ghost use Rattle.std.specs.Prelude.{T};
ghost use Rattle.definitions.specs.Terms.{is_date_time};
ghost use Rattle.definitions.specs.Values.{Value as Meant};
ghost use Rattle.values.specs.Means.{Holds};

use definitions::{TAG_WIDTH, TEXT_WIDTH};

pub mod arithmetic; // sums, differences and distances of numbers
pub mod number; // signed numbers within the limits of their kinds

// Document 01's codes of the datatypes.
pub const ANY_URI: u8 = 1;

pub const STRING: u8 = 2;

pub const DECIMAL: u8 = 3;

pub const DATE_TIME: u8 = 4;

pub const INTEGER: u8 = 5;

// What an expression gives: a value of a kind, or "no value" of that kind where present is false. A URI has a text, a
// string tag and text, each filled with zeros; a decimal counts millionths, a date_time seconds.
#[derive(Clone, Copy)]
pub struct Value {
    pub kind: u8,
    pub present: bool,
    pub number: i64,
    pub tag: [u8; TAG_WIDTH],
    pub text: [u8; TEXT_WIDTH],
}

// The value of now. Ruled out: the seconds as an integer; a date_time of another second.
pub fn now_value(seconds: i64) -> Value
    requires { T (is_date_time seconds) }
    ensures { Holds result (Meant.date_time seconds) }
{
    Value {
        kind: DATE_TIME,
        present: true,
        number: seconds,
        tag: [0; TAG_WIDTH],
        text: [0; TEXT_WIDTH],
    }
}
