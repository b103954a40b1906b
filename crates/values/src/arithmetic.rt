// Sums, differences and distances of numbers.
ghost use Rattle.std.specs.Prelude.{◌≡◌, T};
ghost use Rattle.definitions.specs.Terms.{is_decimal};
ghost use Rattle.definitions.specs.Values.{sum, difference, absolute};
ghost use Rattle.values.specs.Meaning.{meaning, where?, Good, Gives};
ghost use Rattle.values.specs.NumberKinds.{held, in_kind, common_kind, counted_in};

use crate::{DECIMAL, INTEGER, Value, number};
use definitions::{TAG_WIDTH, TEXT_WIDTH};

// A number of a kind where present, else no value of that kind. Both are fields of a Value, so an Option would be made to be taken apart.
pub fn numeric(kind: u8, present: bool, n: i64) -> Value
    ensures { result ≡ held kind (where? present n) }
{
    let number = if present { n } else { 0 };
    Value {
        kind,
        present,
        number,
        tag: [0; TAG_WIDTH],
        text: [0; TEXT_WIDTH],
    }
}

// A number of a kind, or no value where it lies outside the kind's limits.
pub fn limited(kind: u8, n: i64) -> Value
    ensures { result ≡ held kind (where? (in_kind kind n) n) }
{
    let fits = if kind == INTEGER {
        number::within(n, number::INTEGER_LEAST, number::INTEGER_MOST)
    } else {
        number::within(n, number::DECIMAL_LEAST, number::DECIMAL_MOST)
    };
    numeric(kind, fits, n)
}

// Integer with integer gives an integer, else a decimal.
fn common_kind(a: u8, b: u8) -> u8
    ensures { result ≡ common_kind a b }
{
    if a == INTEGER && b == INTEGER {
        INTEGER
    } else {
        DECIMAL
    }
}

// A value's number as it counts in a result's kind: an integer in millionths where that is a decimal.
pub fn counted(v: Value, kind: u8) -> i64
    requires { Good v }
    ensures value { result ≡ counted_in v.kind kind v.number }
    ensures t { T (is_decimal result) }
{
    if v.kind == INTEGER && kind == DECIMAL {
        number::scaled(v.number)
    } else {
        v.number
    }
}

// The sum. Ruled out: a sum outside the limits clipped to them; an integer added to a decimal as so many millionths.
pub fn plus(a: Value, b: Value) -> Value
    requires good { Good a }
    requires good_2 { Good b }
    ensures { Gives result (sum (meaning a) (meaning b)) }
{
    let kind = common_kind(a.kind, b.kind);
    let present = a.present & b.present;
    if !present {
        return numeric(kind, false, 0);
    }
    let x = counted(a, kind);
    let y = counted(b, kind);
    limited(kind, number::sum(x, y))
}

// The difference. Ruled out: the smaller taken from the larger; an integer where one side is a decimal.
pub fn minus(a: Value, b: Value) -> Value
    requires good { Good a }
    requires good_2 { Good b }
    ensures { Gives result (difference (meaning a) (meaning b)) }
{
    let kind = common_kind(a.kind, b.kind);
    let present = a.present & b.present;
    if !present {
        return numeric(kind, false, 0);
    }
    let x = counted(a, kind);
    let y = counted(b, kind);
    limited(kind, number::difference(x, y))
}

// The distance from 0. Ruled out: a negative number given back; 0 for no value.
pub fn abs(a: Value) -> Value
    requires { Good a }
    ensures { Gives result (absolute (meaning a)) }
{
    let kind = common_kind(a.kind, a.kind);
    numeric(kind, a.present, number::distance(a.number))
}
