// What a page record asks of its subject (document 02, Ask 7): at least a datatype, or nothing.
#![tactic(auto)]

ghost use Rattle.std.specs.Prelude.{◌≡◌, ℕ, ◌≤◌, length};
ghost use Rattle.std.proofs.Math.Option.{some};
ghost use Rattle.definitions.specs.Limits.{text_width};
ghost use Rattle.definitions.specs.Bytes.{filled, same_bytes};
ghost use Rattle.definitions.specs.Types.{datatype_code};
ghost use Rattle.definitions.specs.Terms.{Text, Triple, uri_text};
ghost use Rattle.definitions.specs.Gathering.{named, named_or_uri, asks};
ghost use Rattle.laws.specs.Records.{TripleAt};
ghost use Rattle.fields.specs.Answers.{code_of, code_if};
ghost use Rattle.asks.specs.PageRecords.{RecordAt};

use definitions::{OBJECT_OFFSET, PROPERTY_OFFSET, TEXT_WIDTH};
use fields::numbers::{is_zero, same_bytes};

// Whether a URI field is a text, filled with zeros. Ruled out: a text that goes on; one that is cut off.
pub fn is_text(field: &[u8], text: &[u8]) -> bool
    requires field_len { length field.now ≡ text_width }
    requires text_len_bound { length text.now ≤ text_width }
    ensures { result ≡ same_bytes field.now (filled text_width text.now) }
{
    let end = text.len();
    same_bytes(&field[..end], text) && is_zero(&field[end..])
}

// The code of the datatype that a property's range asks for: any URI that is no literal's datatype asks for any_uri.
fn range_code(object: &[u8]) -> u8
    requires { length object.now ≡ text_width }
    ensures { (u : Text) → uri_text object.now ≡ some u → result ≡ datatype_code (named_or_uri (named u)) }
{
    if is_text(object, b"xsd:string") {
        return 2;
    }
    if is_text(object, b"xsd:decimal") {
        return 3;
    }
    if is_text(object, b"xsd:dateTime") {
        return 4;
    }
    if is_text(object, b"xsd:integer") {
        return 5;
    }
    let any_uri = 1;
    any_uri
}

// The code of the datatype that a record asks for, where it asks for one.
// Ruled out: another URI that asks nothing; a text that asks although it is no URI.
pub fn asked(page: &[u8], at: usize) -> Option<u8>
    requires { RecordAt page.now at }
    ensures { (x : Triple) (next : ℕ) → TripleAt page.now at x next → result ≡ code_if (code_of (asks x.property x.object)) }
{
    if page[at] != 0x81 {
        return None;
    }
    let middle = at + PROPERTY_OFFSET;
    let last = at + OBJECT_OFFSET;
    let end = last + TEXT_WIDTH;
    if is_text(&page[middle..last], b"rdfs:range") {
        return Some(range_code(&page[last..end]));
    }
    if !is_text(&page[middle..last], b"rdf:type") {
        return None;
    }
    if is_text(&page[last..end], b"owl:ObjectProperty") {
        return Some(1);
    }
    None
}
