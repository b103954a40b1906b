// Signed numbers within the limits of their kinds. Nothing here overflows: an i64 holds nine times the widest limit.
ghost use Rattle.std.specs.Prelude.{◌≡◌, ◌&&◌, T, pos, nat_abs, ◌+ℤ◌, ◌-ℤ◌, ◌*ℤ◌};
ghost use Rattle.std.specs.Int.Signed.{le_z, lt_z};
ghost use Rattle.definitions.specs.Terms.{is_integer, is_decimal, same_number};
ghost use Rattle.definitions.specs.Values.{million};

use definitions::{DECIMAL_LIMIT, INTEGER_LIMIT, SECONDS_AFTER, SECONDS_BEFORE};

// The least and the greatest number of each kind.
pub const INTEGER_LEAST: i64 = -(INTEGER_LIMIT as i64);

pub const INTEGER_MOST: i64 = INTEGER_LIMIT as i64;

pub const DECIMAL_LEAST: i64 = -(DECIMAL_LIMIT as i64);

pub const DECIMAL_MOST: i64 = DECIMAL_LIMIT as i64;

pub const DATE_TIME_LEAST: i64 = -(SECONDS_BEFORE as i64);

pub const DATE_TIME_MOST: i64 = SECONDS_AFTER as i64;

// Ruled out: a sum that wraps; a difference.
pub fn sum(a: i64, b: i64) -> i64
    requires t { T (is_decimal a) }
    requires t_2 { T (is_decimal b) }
    ensures { result ≡ a +ℤ b }
{
    a + b
}

// Ruled out: b - a; the distance between the two.
pub fn difference(a: i64, b: i64) -> i64
    requires t { T (is_decimal a) }
    requires t_2 { T (is_decimal b) }
    ensures { result ≡ a -ℤ b }
{
    a - b
}

// An integer in millionths. Ruled out: thousandths; the integer itself.
pub fn scaled(n: i64) -> i64
    requires { T (is_integer n) }
    ensures { result ≡ n *ℤ pos million }
{
    n * 1000000
}

// The distance from 0. Ruled out: a number below 0; one less than the distance for those.
pub fn distance(n: i64) -> i64
    requires { T (is_decimal n) }
    ensures { result ≡ pos (nat_abs n) }
{
    n.abs()
}

// Whether a number lies between two, both included. Ruled out: high left out; a number below low let in.
pub fn within(n: i64, low: i64, high: i64) -> bool
    ensures { result ≡ (le_z low n && le_z n high) }
{
    low <= n && n <= high
}

// Ruled out: equal numbers taken for less; a compare of distances from 0.
pub fn is_less(a: i64, b: i64) -> bool
    ensures { result ≡ lt_z a b }
{
    a < b
}

// Ruled out: -3 the same as 3; true for every pair.
pub fn is_same(a: i64, b: i64) -> bool
    ensures { result ≡ same_number a b }
{
    a == b
}
