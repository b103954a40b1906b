// Words, numbers and values as bytes of a writer.
ghost use Rattle.values.specs.Meaning.{Good};

use cases::rows;
use definitions::Truth;
use std::io::{self, Write};
use values::Value;

// Bytes as they are.
pub fn word<W: Write>(out: &mut W, text: &[u8]) -> io::Result<()> {
    out.write_all(text)
}

// One byte.
pub fn byte<W: Write>(out: &mut W, b: u8) -> io::Result<()> {
    out.write_all(&[b])
}

// The text of a field, without the zeros after it.
fn field<W: Write>(out: &mut W, text: &[u8]) -> io::Result<()> {
    let end = rows::find(text, 0, text.len(), 0);
    out.write_all(&text[..end])
}

// A number with its sign.
pub fn number<W: Write>(out: &mut W, n: i64) -> io::Result<()> {
    if n < 0 {
        byte(out, b'-')?;
    }
    let far = n.unsigned_abs();
    write!(out, "{far}")
}

// A string in quotes, with its tag where it has one.
fn quoted<W: Write>(out: &mut W, v: Value) -> io::Result<()> {
    byte(out, b'"')?;
    field(out, &v.text)?;
    byte(out, b'"')?;
    if v.tag[0] != 0 {
        byte(out, b'@')?;
        field(out, &v.tag)?;
    }
    Ok(())
}

// A string in quotes, of any other value what str gives.
pub fn value<W: Write>(out: &mut W, v: Value) -> io::Result<()>
    requires { Good v }
{
    let line = strings::text::text_of(v);
    if !line.present {
        return word(out, b"no value");
    }
    if v.kind == values::STRING {
        return quoted(out, v);
    }
    field(out, &line.text)
}

// Two values with a sign between them.
pub fn pair<W: Write>(out: &mut W, a: Value, sign: &[u8], b: Value) -> io::Result<()>
    requires good { Good a }
    requires good_2 { Good b }
{
    value(out, a)?;
    word(out, sign)?;
    value(out, b)
}

// A boolean.
pub fn truth<W: Write>(out: &mut W, t: Truth) -> io::Result<()> {
    match t {
        Truth::True => word(out, b"true"),
        Truth::False => word(out, b"false"),
        Truth::Unknown => word(out, b"unknown"),
    }
}

// The end of a line that tells what a test gives.
pub fn answer<W: Write>(out: &mut W, t: Truth) -> io::Result<()> {
    word(out, b": ")?;
    truth(out, t)?;
    byte(out, b'\n')
}
