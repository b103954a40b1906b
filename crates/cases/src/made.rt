// Values made of plain data, and texts in the fields that hold them.
ghost use Rattle.std.specs.Prelude.{◌≡◌, cond, ◌≤◌, pos, length};
ghost use Rattle.definitions.specs.Limits.{text_width, tag_width};
ghost use Rattle.definitions.specs.Bytes.{filled};
ghost use Rattle.definitions.specs.Terms.{is_integer, is_decimal, is_date_time};
ghost use Rattle.definitions.specs.Values.{Value as Meant};
ghost use Rattle.values.specs.Meaning.{where?};
ghost use Rattle.values.specs.Means.{Holds};
ghost use Rattle.cases.specs.Made.{tagged_in, uri_in};

use definitions::{TAG_WIDTH, TEXT_WIDTH};
use term_bodies::texts;
use values::arithmetic::limited;
use values::{ANY_URI, DECIMAL, INTEGER, STRING, Value, now_value, number};

// An integer, or no value outside its limits. Ruled out: the nearest limit in its place; a decimal of the same amount.
pub fn integer(n: i64) -> Value
    ensures { Holds result (Meant.integer (where? (is_integer n) n)) }
{
    limited(INTEGER, n)
}

// A decimal of n millionths, or no value outside its limits. Ruled out: n whole units; no value at a limit itself.
pub fn decimal(n: i64) -> Value
    ensures { Holds result (Meant.decimal (where? (is_decimal n) n)) }
{
    limited(DECIMAL, n)
}

// A date_time; a number outside the limits counts as 0. Ruled out: 10000-01-01T00:00:00Z; an integer of the same number.
pub fn date_time(n: i64) -> Value
    ensures { Holds result (Meant.date_time (cond (is_date_time n) n (pos 0))) }
{
    if number::within(n, number::DATE_TIME_LEAST, number::DATE_TIME_MOST) {
        now_value(n)
    } else {
        now_value(0)
    }
}

// A string from its fields, or no value where one of them is bad. Ruled out: a tag in capitals; bytes after a zero.
fn string_in(tag: [u8; TAG_WIDTH], text: [u8; TEXT_WIDTH]) -> Value
    ensures { Holds result (Meant.string (tagged_in tag text)) }
{
    if texts::tag_ok(&tag) && texts::text_ok(&text) {
        Value {
            kind: STRING,
            present: true,
            number: 0,
            tag,
            text,
        }
    } else {
        Value {
            kind: STRING,
            present: false,
            number: 0,
            tag: [0; TAG_WIDTH],
            text: [0; TEXT_WIDTH],
        }
    }
}

// A URI from its field; the empty text where the field is bad. Ruled out: a blank in a URI; a string of the same text.
fn uri_in(text: [u8; TEXT_WIDTH]) -> Value
    ensures { Holds result (Meant.uri (uri_in text)) }
{
    let good = if texts::uri_ok(&text) {
        text
    } else {
        [0; TEXT_WIDTH]
    };
    Value {
        kind: ANY_URI,
        present: true,
        number: 0,
        tag: [0; TAG_WIDTH],
        text: good,
    }
}

// A text in a field that it fits. Ruled out: a text cut short; bytes other than zeros after it.
pub fn field<const N: usize>(text: &[u8]) -> [u8; N]
    requires { length text.now ≤ N }
    ensures { result ≡ filled N text.now }
{
    let mut field = [0u8; N];
    field[..text.len()].copy_from_slice(text);
    field
}

// A string with a tag. Ruled out: text and tag exchanged; a string with no tag.
pub fn string(tag: &[u8], text: &[u8]) -> Value
    requires tag_len_bound { length tag.now ≤ tag_width }
    requires text_len_bound { length text.now ≤ text_width }
    ensures { Holds result (Meant.string (tagged_in (filled tag_width tag.now) (filled text_width text.now))) }
{
    string_in(field(tag), field(text))
}

// A URI. Ruled out: a string of the same text; the empty URI for a good text.
pub fn uri(text: &[u8]) -> Value
    requires { length text.now ≤ text_width }
    ensures { Holds result (Meant.uri (uri_in (filled text_width text.now))) }
{
    uri_in(field(text))
}
