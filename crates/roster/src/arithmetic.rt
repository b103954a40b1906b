// str of numbers, and arithmetic at the limits.
ghost use Rattle.values.specs.Meaning.{Good};

use crate::print;
use cases::made;
use std::io::{self, Write};
use values::Value;

// Around 0 and at both limits, and one past each.
const INTEGERS: [i64; 8] = [
    0,
    -3,
    10,
    999999999999,
    1000000000000,
    -1000000000000,
    1000000000001,
    -1000000000001,
];

// Decimals, in millionths.
const DECIMALS: [i64; 15] = [
    // One digit at least on both sides of the point, and no needless zero.
    0,
    -500000,
    3000000,
    1,
    -1,
    10,
    100500,
    -12345678,
    10000000,
    // Both limits, and one millionth on either side of them.
    999999999999999999,
    1000000000000000000,
    1000000000000000001,
    -999999999999999999,
    -1000000000000000000,
    -1000000000000000001,
];

// One case: str of an integer.
fn show_integer<W: Write>(out: &mut W, n: i64) -> io::Result<()> {
    print::word(out, b"str of integer ")?;
    print::number(out, n)?;
    print::word(out, b": ")?;
    print::value(out, made::integer(n))?;
    print::byte(out, b'\n')
}

// One case: str of a decimal, given by its count of millionths.
fn show_decimal<W: Write>(out: &mut W, millionths: i64) -> io::Result<()> {
    print::word(out, b"str of ")?;
    print::number(out, millionths)?;
    print::word(out, b" millionths: ")?;
    print::value(out, made::decimal(millionths))?;
    print::byte(out, b'\n')
}

// One case of plus or minus.
fn show_result<W: Write>(
    out: &mut W,
    a: Value,
    sign: &[u8],
    b: Value,
    given: Value,
) -> io::Result<()>
    requires good { Good a }
    requires good_2 { Good b }
    requires good_3 { Good given }
{
    print::pair(out, a, sign, b)?;
    print::word(out, b" = ")?;
    print::value(out, given)?;
    print::byte(out, b'\n')
}

fn show_sum<W: Write>(out: &mut W, a: Value, b: Value) -> io::Result<()>
    requires good { Good a }
    requires good_2 { Good b }
{
    show_result(out, a, b" + ", b, values::arithmetic::plus(a, b))
}

fn show_difference<W: Write>(out: &mut W, a: Value, b: Value) -> io::Result<()>
    requires good { Good a }
    requires good_2 { Good b }
{
    show_result(out, a, b" - ", b, values::arithmetic::minus(a, b))
}

// One case of abs.
fn show_distance<W: Write>(out: &mut W, a: Value) -> io::Result<()>
    requires { Good a }
{
    print::word(out, b"abs ")?;
    print::value(out, a)?;
    print::word(out, b" = ")?;
    print::value(out, values::arithmetic::abs(a))?;
    print::byte(out, b'\n')
}

fn integers<W: Write>(out: &mut W) -> io::Result<()> {
    for n in INTEGERS {
        show_integer(out, n)?;
    }
    Ok(())
}

fn decimals<W: Write>(out: &mut W) -> io::Result<()> {
    for millionths in DECIMALS {
        show_decimal(out, millionths)?;
    }
    Ok(())
}

// Integer with integer gives an integer, else a decimal; past the limits, and of no value, no value.
fn sums<W: Write>(out: &mut W) -> io::Result<()> {
    show_sum(out, made::integer(2), made::integer(3))?;
    show_sum(out, made::integer(3), made::decimal(500000))?;
    show_sum(out, made::decimal(500000), made::decimal(500000))?;
    show_sum(out, made::integer(999999999999), made::integer(1))?;
    show_sum(out, made::integer(1000000000000), made::integer(1))?;
    show_sum(out, made::integer(1000000000000), made::decimal(0))?;
    show_sum(out, made::integer(1000000000000), made::decimal(1))?;
    show_sum(out, made::integer(1000000000001), made::integer(-1))
}

// The same of minus, at the lower limits.
fn differences<W: Write>(out: &mut W) -> io::Result<()> {
    show_difference(out, made::integer(2), made::integer(3))?;
    show_difference(out, made::decimal(100000), made::integer(3))?;
    show_difference(out, made::integer(-1000000000000), made::integer(1))?;
    show_difference(
        out,
        made::integer(-1000000000000),
        made::integer(-1000000000000),
    )?;
    show_difference(out, made::decimal(-1000000000000000000), made::decimal(1))?;
    show_difference(out, made::decimal(-1000000000000000000), made::decimal(0))?;
    show_difference(out, made::decimal(1), made::decimal(1000000000000000001))
}

// abs at the lower limits, where it stays within the upper ones.
fn distances<W: Write>(out: &mut W) -> io::Result<()> {
    show_distance(out, made::integer(-3))?;
    show_distance(out, made::integer(-1000000000000))?;
    show_distance(out, made::decimal(-1))?;
    show_distance(out, made::decimal(-1000000000000000000))?;
    show_distance(out, made::decimal(-1000000000000000001))
}

// 43 lines.
pub fn cases<W: Write>(out: &mut W) -> io::Result<()> {
    integers(out)?;
    decimals(out)?;
    sums(out)?;
    differences(out)?;
    distances(out)
}
