// Fields of text filled with zeros.
ghost use Rattle.std.specs.Prelude.{◌≡◌, length};
ghost use Rattle.definitions.specs.Limits.{text_width, tag_width};
ghost use Rattle.definitions.specs.Terms.{field_text, uri_text, text_byte, tag_byte};
ghost use Rattle.laws.specs.ReadAnswers.{is_some};
ghost use Rattle.fields.specs.Answers.{range_or};

fn byte_ok(b: u8, low: u8, high: u8, other: u8) -> bool
    ensures { result ≡ range_or low high other b }
{
    ((low <= b) & (b <= high)) | (b == other)
}

// Whether a field is a text of bytes from low to high, or other, and then zeros. All are looked at, so that the compiler takes many at once.
// Ruled out: bytes after the first zero left unchecked; the last byte left out.
pub fn field_ok(field: &[u8], low: u8, high: u8, other: u8) -> bool
    ensures { result ≡ is_some (field_text (range_or low high other) (length field.now) field.now) }
{
    let mut ok = true;
    let mut before = 1;
    for &b in field {
        ok &= (b == 0) | ((before != 0) & byte_ok(b, low, high, other));
        before = b;
    }
    ok
}

// A URI: one byte at least, all from 21 to 7E. Ruled out: an empty one; one with a blank.
pub fn uri_ok(field: &[u8]) -> bool
    requires { length field.now ≡ text_width }
    ensures { result ≡ is_some (uri_text field.now) }
{
    field[0] != 0 && field_ok(field, 0x21, 0x7e, 0x7e)
}

// A string's text: bytes from 20 to 7E, or none. Ruled out: byte 7F; an empty text refused.
pub fn text_ok(field: &[u8]) -> bool
    requires { length field.now ≡ text_width }
    ensures { result ≡ is_some (field_text text_byte text_width field.now) }
{
    field_ok(field, 0x20, 0x7e, 0x7e)
}

// A language tag: small letters and hyphens, or none. Ruled out: a capital letter; a digit.
pub fn tag_ok(field: &[u8]) -> bool
    requires { length field.now ≡ tag_width }
    ensures { result ≡ is_some (field_text tag_byte tag_width field.now) }
{
    field_ok(field, 0x61, 0x7a, b'-')
}
