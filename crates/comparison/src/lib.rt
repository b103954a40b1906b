// Equal and less: numbers by amount, date_times by seconds, strings by text and tag, URIs by bytes.
#![tactic(auto)]

ghost use Rattle.std.specs.Prelude.{◌≡◌, ◌&&◌, length};
ghost use Rattle.definitions.specs.Limits.{ranks_width};
ghost use Rattle.definitions.specs.Bytes.{same_bytes, unfilled};
ghost use Rattle.definitions.specs.Values.{before, string_before, equal_pair, less_pair};
ghost use Rattle.values.specs.Meaning.{meaning, string_of, Good, Tells, compared};

use definitions::Truth;
use text_order::tables;
use truth::told;
use values::arithmetic::counted;
use values::{DATE_TIME, DECIMAL, INTEGER, STRING, Value, number};

// Whether two strings have the same tag and text.
fn same_strings(a: Value, b: Value) -> bool
    requires good { Good a }
    requires good_2 { Good b }
    ensures { result ≡ (same_bytes (unfilled a.tag) (unfilled b.tag) && same_bytes (unfilled a.text) (unfilled b.text)) }
{
    text_order::same(&a.tag, &b.tag) && text_order::same(&a.text, &b.text)
}

// Whether one URI comes before another, by bytes.
fn uri_before(a: Value, b: Value) -> bool
    requires good { Good a }
    requires good_2 { Good b }
    ensures { result ≡ before (λ n. n) (unfilled a.text) (unfilled b.text) }
{
    text_order::before(&tables::BYTES, &a.text, &b.text)
}

// Whether one string comes before another: by text, then tag, under ranks.
fn string_before(ranks: &[u8], a: Value, b: Value) -> bool
    requires ranks_len { length ranks.now ≡ ranks_width }
    requires good { Good a }
    requires good_2 { Good b }
    ensures { result ≡ string_before ranks.now (string_of a) (string_of b) }
{
    text_order::before(ranks, &a.text, &b.text)
        || (text_order::same(&a.text, &b.text) && text_order::before(ranks, &a.tag, &b.tag))
}

// Whether two values are equal: numbers by amount, date_times by seconds, strings by tag and text.
// Ruled out: integer 3 apart from decimal 3.0; false where a side has no value.
pub fn equal(a: Value, b: Value) -> Truth
    requires good { Good a }
    requires good_2 { Good b }
    ensures { Tells result (compared equal_pair (meaning a) (meaning b)) }
{
    let present = a.present & b.present;
    match a.kind {
        STRING => told(present, same_strings(a, b)),
        DECIMAL | INTEGER => told(
            present,
            number::is_same(counted(a, DECIMAL), counted(b, DECIMAL)),
        ),
        DATE_TIME => told(true, number::is_same(a.number, b.number)),
        _ => told(true, text_order::same(&a.text, &b.text)),
    }
}

// Whether a value is less than another: strings by text, then tag, under the ranks that are lent, URIs by bytes.
// Ruled out: tags by bytes; a text before its own beginning.
pub fn less(ranks: &[u8], a: Value, b: Value) -> Truth
    requires ranks_len { length ranks.now ≡ ranks_width }
    requires good { Good a }
    requires good_2 { Good b }
    ensures { Tells result (compared (less_pair ranks.now) (meaning a) (meaning b)) }
{
    let present = a.present & b.present;
    match a.kind {
        STRING => told(present, string_before(ranks, a, b)),
        DECIMAL | INTEGER => told(
            present,
            number::is_less(counted(a, DECIMAL), counted(b, DECIMAL)),
        ),
        DATE_TIME => told(true, number::is_less(a.number, b.number)),
        _ => told(true, uri_before(a, b)),
    }
}
