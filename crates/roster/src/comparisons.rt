// Equal and less. A line has the sign between two values: < and > by less, = by equal, ? where none of them is true.
ghost use Rattle.std.specs.Prelude.{◌≡◌, ◌+◌, ◌≤◌, length};
ghost use Rattle.definitions.specs.Limits.{text_width, tag_width};
ghost use Rattle.definitions.specs.Alphabet.{built_in};
ghost use Rattle.definitions.specs.Outcome.{ok};
ghost use Rattle.definitions.specs.Truth.{is_true};
ghost use Rattle.definitions.specs.declared.Truth.{Truth};
ghost use Rattle.definitions.specs.Values.{equal_pair, less_pair};
ghost use Rattle.values.specs.Meaning.{meaning, Good, compared};
ghost use Rattle.roster.specs.Signs.{sign_of};

use crate::{order, print};
use cases::{made, rows};
use definitions::{TAG_WIDTH, TEXT_WIDTH};
use std::io::{self, Write};
use truth::is_true;
use values::Value;

// The sign of what three tests tell.
fn sign(less: bool, equal: bool, more: bool) -> u8
    ensures { result ≡ sign_of less equal more }
{
    if less {
        return b'<';
    }
    if equal {
        return b'=';
    }
    if more {
        return b'>';
    }
    b'?'
}

// The sign between two values.
fn relation(a: Value, b: Value) -> u8
    requires good { Good a }
    requires good_2 { Good b }
    ensures { (l e m : Truth) → compared (less_pair built_in) (meaning a) (meaning b) ≡ ok l → compared equal_pair (meaning a) (meaning b) ≡ ok e
        → compared (less_pair built_in) (meaning b) (meaning a) ≡ ok m → result ≡ sign_of (is_true l) (is_true e) (is_true m) }
{
    let less = is_true(order::less(a, b));
    let equal = is_true(comparison::equal(a, b));
    let more = is_true(order::less(b, a));
    sign(less, equal, more)
}

// One case: two values and the sign between them.
pub fn compare<W: Write>(out: &mut W, a: Value, b: Value) -> io::Result<()>
    requires good { Good a }
    requires good_2 { Good b }
{
    let between = relation(a, b);
    print::value(out, a)?;
    print::byte(out, b' ')?;
    print::byte(out, between)?;
    print::byte(out, b' ')?;
    print::value(out, b)?;
    print::byte(out, b'\n')
}

// Numbers by amount, whatever their kinds; no value compares with nothing.
fn numbers<W: Write>(out: &mut W) -> io::Result<()> {
    compare(out, made::integer(3), made::decimal(3000000))?;
    compare(out, made::decimal(2999999), made::integer(3))?;
    compare(out, made::integer(-3), made::integer(2))?;
    compare(
        out,
        made::integer(1000000000000),
        made::decimal(1000000000000000000),
    )?;
    compare(
        out,
        made::integer(1000000000001),
        made::integer(1000000000001),
    )?;
    compare(out, made::integer(1000000000001), made::decimal(0))?;
    compare(out, made::decimal(0), made::decimal(-1000000000000000001))
}

// date_times by seconds.
fn date_times<W: Write>(out: &mut W) -> io::Result<()> {
    compare(out, made::date_time(-1), made::date_time(0))?;
    compare(out, made::date_time(951782400), made::date_time(951782400))?;
    compare(
        out,
        made::date_time(253402300799),
        made::date_time(-62135596800),
    )
}

// One case: two strings with no tag.
fn compare_strings<W: Write>(out: &mut W, a: &[u8], b: &[u8]) -> io::Result<()>
    requires a_len_bound { length a.now ≤ text_width }
    requires b_len_bound { length b.now ≤ text_width }
{
    compare(out, made::string(b"", a), made::string(b"", b))
}

// Each byte of an order with the byte after it, as strings of one byte.
fn neighbours<W: Write>(out: &mut W, order: &[u8]) -> io::Result<()> {
    for i in 1..order.len() {
        compare_strings(out, &order[i - 1..i], &order[i..i + 1])?;
    }
    Ok(())
}

// The string of a tag and a text, each a word of the rows.
fn string_of(text: &[u8], tag: usize, stop: usize, start: usize, end: usize) -> Value
    requires tag_le_stop { (tag ≤ stop) × (stop ≤ tag + tag_width) × (stop ≤ length text.now) }
    requires start_le_end { (start ≤ end) × (end ≤ start + text_width) × (end ≤ length text.now) }
    ensures { Good result }
{
    made::string(&text[tag..stop], &text[start..end])
}

// A row for each case: two strings, each a tag and a text.
fn string_rows<W: Write>(out: &mut W, text: &[u8]) -> io::Result<()> {
    let mut at = 0;
    while at < text.len() {
        let tag_end = rows::word_end(text, at, b'|', TAG_WIDTH);
        let first = rows::within(text, tag_end);
        let first_end = rows::word_end(text, first, b'|', TEXT_WIDTH);
        let tag = rows::within(text, first_end);
        let other_end = rows::word_end(text, tag, b'|', TAG_WIDTH);
        let second = rows::within(text, other_end);
        let last = rows::word_end(text, second, b'\n', TEXT_WIDTH);
        let a = string_of(text, at, tag_end, first, first_end);
        let b = string_of(text, tag, other_end, second, last);
        compare(out, a, b)?;
        at = rows::after(text, last);
    }
    Ok(())
}

// A row for each case: two URIs.
fn uri_rows<W: Write>(out: &mut W, text: &[u8]) -> io::Result<()> {
    let mut at = 0;
    while at < text.len() {
        let end = rows::word_end(text, at, b'|', TEXT_WIDTH);
        let second = rows::within(text, end);
        let last = rows::word_end(text, second, b'\n', TEXT_WIDTH);
        let a = made::uri(&text[at..end]);
        let b = made::uri(&text[second..last]);
        compare(out, a, b)?;
        at = rows::after(text, last);
    }
    Ok(())
}

// 119 lines.
pub fn cases<W: Write>(out: &mut W) -> io::Result<()> {
    numbers(out)?;
    date_times(out)?;
    // By text: the end comes first, and a later byte counts only after equal ones.
    neighbours(
        out,
        b" 0123456789AaBbCcDdEeFfGgHhIiJjKkLlMmNnOoPpQqRrSsTtUuVvWwXxYyZz!\"#$%&'()*+,-./:;<=>?@[\\]^_`{|}~",
    )?;
    string_rows(out, b"|||\n||| \n|ab||abc\n|abc||ab\n|aZ||Aa\n|10||9\n")?;
    // Then by tag.
    string_rows(
        out,
        b"en|a|en|a\nen|a||a\nen|a|fr|a\nfr|a|en|b\nen-a|a|ena|a\n",
    )?;
    // URIs by bytes.
    uri_rows(out, b"p:Z|p:a\np:a|p:0\np:a|p:aa\np:name|p:name\n")
}
