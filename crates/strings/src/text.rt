// str: the texts of values.
ghost use Rattle.std.specs.Prelude.{◌≡◌, ◌≤◌, ◌<◌, ◌+◌, T, pos, nat_abs, ◌+ℤ◌};
ghost use Rattle.definitions.specs.Limits.{text_width, seconds_before, seconds_after};
ghost use Rattle.definitions.specs.Terms.{is_decimal, is_date_time};
ghost use Rattle.definitions.specs.Calendar.{date_text, time_text, date_time_text};
ghost use Rattle.definitions.specs.Values.{sign_text, integer_text, decimal_text, text_of, Value as Meant};
ghost use Rattle.strings.specs.Lines.{Puts, Written, line_of};
ghost use Rattle.values.specs.Meaning.{meaning, Good};
ghost use Rattle.values.specs.Means.{Holds, plain_string};
ghost use Rattle.calendar.specs.Dates.{meant_date};

use crate::line;
use crate::line::{EMPTY, Line};
use calendar::Date;
use definitions::{SECONDS_BEFORE, TAG_WIDTH, TEXT_WIDTH};
use values::{DATE_TIME, DECIMAL, INTEGER, STRING, Value, number};

// The seconds from 0001-01-01T00:00:00Z to 1970.
const FROM_START: i64 = SECONDS_BEFORE as i64;

// The seconds from 0001-01-01T00:00:00Z to a date_time.
fn since_start(n: i64) -> u64
    requires { T (is_date_time n) }
    ensures { (result ≡ nat_abs (n +ℤ pos seconds_before)) × (result ≤ seconds_before + seconds_after) }
{
    number::sum(n, FROM_START) as u64
}

// An empty line, with a minus sign for a number below 0.
fn sign(n: i64) -> Line
    ensures { (result ≡ line_of (sign_text n)) × (result.len ≤ 1) }
{
    if n < 0 {
        line::push(EMPTY, b'-')
    } else {
        EMPTY
    }
}

// An integer's digits. Ruled out: +3; no digits for 0.
pub fn integer(n: i64) -> Line
    requires { T (is_decimal n) }
    ensures { Written result (integer_text n) }
{
    let far = n.unsigned_abs();
    let start = sign(n);
    line::natural(start, 20, far)
}

// A decimal's millionths, with a digit on both sides of the point. Ruled out: -.5; 3.000000.
pub fn decimal(n: i64) -> Line
    requires { T (is_decimal n) }
    ensures { Written result (decimal_text n) }
{
    let far = n.unsigned_abs();
    let start = sign(n);
    let whole = line::natural(start, 20, far / 1000000);
    let point = line::push(whole, b'.');
    line::fraction(point, 6, far % 1000000)
}

// A date as 1970-01-01.
fn put_date(start: Line, date: Date) -> Line
    requires { start.len + 10 ≤ text_width }
    ensures { Puts start result (date_text (meant_date date)) }
{
    let year = line::digits(start, 4, date.year);
    let first = line::push(year, b'-');
    let month = line::digits(first, 2, date.month);
    let second = line::push(month, b'-');
    line::digits(second, 2, date.day)
}

// A time of day as 00:00:00.
fn put_time(start: Line, second: u64) -> Line
    requires { start.len + 8 ≤ text_width }
    ensures { Puts start result (time_text second) }
{
    let hours = line::digits(start, 2, second / 3600);
    let first = line::push(hours, b':');
    let minutes = line::digits(first, 2, second / 60 % 60);
    let next = line::push(minutes, b':');
    line::digits(next, 2, second % 60)
}

// A date_time as 1970-01-01T00:00:00Z. Ruled out: -1 seconds on 1970-01-01; 24:00:00 at midnight.
pub fn date_time(n: i64) -> Line
    requires { T (is_date_time n) }
    ensures { Written result (date_time_text n) }
{
    let seconds = since_start(n);
    let date = calendar::date_of(seconds / 86400);
    let day = put_date(EMPTY, date);
    let mark = line::push(day, b'T');
    let time = put_time(mark, seconds % 86400);
    line::push(time, b'Z')
}

// A string with no tag.
fn untagged(present: bool, text: [u8; TEXT_WIDTH]) -> Value
    ensures { result ≡ plain_string present text }
{
    Value {
        kind: STRING,
        present,
        number: 0,
        tag: [0; TAG_WIDTH],
        text,
    }
}

// str: a URI's or string's text without tag, a number's digits, a date_time as 1970-01-01T00:00:00Z.
// Ruled out: 3 for the decimal 3.0; a string that keeps its tag.
pub fn text_of(v: Value) -> Value
    requires { Good v }
    ensures { Holds result (Meant.string (text_of (meaning v))) }
{
    match v.kind {
        STRING => untagged(v.present, v.text),
        DECIMAL => untagged(v.present, decimal(v.number).bytes),
        DATE_TIME => untagged(true, date_time(v.number).bytes),
        INTEGER => untagged(v.present, integer(v.number).bytes),
        _ => untagged(true, v.text),
    }
}
