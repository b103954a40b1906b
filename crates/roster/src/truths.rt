// Booleans: the tables of not, and and or, and tests that hold a sum past the limits.
ghost use Rattle.values.specs.Meaning.{Good};

use crate::{order, print};
use cases::made;
use definitions::Truth;
use std::io::{self, Write};
use truth::{and_of, not_of, or_of};
use values::{Value, arithmetic};

const TRUTHS: [Truth; 3] = [Truth::True, Truth::False, Truth::Unknown];

fn show_not<W: Write>(out: &mut W, a: Truth) -> io::Result<()> {
    print::word(out, b"not ")?;
    print::truth(out, a)?;
    print::answer(out, not_of(a))
}

fn show_both<W: Write>(
    out: &mut W,
    a: Truth,
    sign: &[u8],
    b: Truth,
    given: Truth,
) -> io::Result<()> {
    print::truth(out, a)?;
    print::word(out, sign)?;
    print::truth(out, b)?;
    print::answer(out, given)
}

// Three rows of both tables.
fn show_rows<W: Write>(out: &mut W, a: Truth) -> io::Result<()> {
    for b in TRUTHS {
        show_both(out, a, b" and ", b, and_of(a, b))?;
    }
    for b in TRUTHS {
        show_both(out, a, b" or ", b, or_of(a, b))?;
    }
    Ok(())
}

fn tables<W: Write>(out: &mut W) -> io::Result<()> {
    for a in TRUTHS {
        show_not(out, a)?;
    }
    for a in TRUTHS {
        show_rows(out, a)?;
    }
    Ok(())
}

// The end of a line: whether a value is less than 5.
fn show_less<W: Write>(out: &mut W, v: Value) -> io::Result<()>
    requires { Good v }
{
    print::word(out, b" < 5")?;
    print::answer(out, order::less(v, made::integer(5)))
}

fn show_sum<W: Write>(out: &mut W, a: Value, b: Value) -> io::Result<()>
    requires good { Good a }
    requires good_2 { Good b }
{
    print::pair(out, a, b" + ", b)?;
    show_less(out, arithmetic::plus(a, b))
}

fn show_difference<W: Write>(out: &mut W, a: Value, b: Value) -> io::Result<()>
    requires good { Good a }
    requires good_2 { Good b }
{
    print::pair(out, a, b" - ", b)?;
    show_less(out, arithmetic::minus(a, b))
}

// Plus and minus of integers, at both limits and past them.
fn integers<W: Write>(out: &mut W) -> io::Result<()> {
    show_sum(out, made::integer(999999999999), made::integer(1))?;
    show_sum(out, made::integer(1000000000000), made::integer(1))?;
    show_sum(out, made::integer(-999999999999), made::integer(-1))?;
    show_sum(out, made::integer(-1000000000000), made::integer(-1))?;
    show_difference(out, made::integer(999999999999), made::integer(-1))?;
    show_difference(out, made::integer(1000000000000), made::integer(-1))?;
    show_difference(out, made::integer(-999999999999), made::integer(1))?;
    show_difference(out, made::integer(-1000000000000), made::integer(1))
}

// The same of decimals.
fn decimals<W: Write>(out: &mut W) -> io::Result<()> {
    show_sum(out, made::decimal(999999999999999999), made::decimal(1))?;
    show_sum(out, made::decimal(1000000000000000000), made::decimal(1))?;
    show_sum(out, made::decimal(-999999999999999999), made::decimal(-1))?;
    show_sum(out, made::decimal(-1000000000000000000), made::decimal(-1))?;
    show_difference(out, made::decimal(999999999999999999), made::decimal(-1))?;
    show_difference(out, made::decimal(1000000000000000000), made::decimal(-1))?;
    show_difference(out, made::decimal(-999999999999999999), made::decimal(1))?;
    show_difference(out, made::decimal(-1000000000000000000), made::decimal(1))
}

// A sum past the limits under abs, under str, and its comparison under not.
fn show_past<W: Write>(out: &mut W, a: Value, b: Value) -> io::Result<()>
    requires good { Good a }
    requires good_2 { Good b }
{
    let past = arithmetic::plus(a, b);
    print::word(out, b"abs of it")?;
    show_less(out, arithmetic::abs(past))?;
    print::word(out, b"str of it = str of it")?;
    let text = strings::text::text_of(past);
    print::answer(out, comparison::equal(text, text))?;
    print::word(out, b"not it < 5")?;
    let less = order::less(past, made::integer(5));
    print::answer(out, not_of(less))
}

// 43 lines.
pub fn cases<W: Write>(out: &mut W) -> io::Result<()> {
    tables(out)?;
    integers(out)?;
    show_past(out, made::integer(1000000000000), made::integer(1))?;
    decimals(out)?;
    show_past(out, made::decimal(-1000000000000000000), made::decimal(-1))
}
