// Texts up to the width of their field (document 02, Ask 6): so many bytes, all `a` but for the last.
ghost use Rattle.std.specs.Prelude.{◌≤◌};
ghost use Rattle.definitions.specs.Limits.{text_width};
ghost use Rattle.values.specs.Meaning.{Good};

use crate::comparisons::compare;
use crate::patterns::show_on;
use cases::made;
use definitions::TEXT_WIDTH;
use std::io::{self, Write};
use values::Value;

// A field of bytes `a`, with another where a text of so many bytes ends.
fn text(n: usize, last: u8) -> [u8; TEXT_WIDTH]
    requires { (1 ≤ n) × (n ≤ text_width) }
{
    let mut text = [b'a'; TEXT_WIDTH];
    text[n - 1] = last;
    text
}

// A string with no tag.
fn string(n: usize, last: u8) -> Value
    requires { (1 ≤ n) × (n ≤ text_width) }
    ensures { Good result }
{
    made::string(b"", &text(n, last)[..n])
}

// A URI.
fn uri(n: usize, last: u8) -> Value
    requires { (1 ≤ n) × (n ≤ text_width) }
    ensures { Good result }
{
    made::uri(&text(n, last)[..n])
}

// The end comes first, and the last byte counts.
fn strings<W: Write>(out: &mut W) -> io::Result<()> {
    compare(out, string(40, b'a'), string(41, b'a'))?;
    compare(out, string(96, b'a'), string(95, b'a'))?;
    compare(out, string(96, b'b'), string(96, b'c'))?;
    compare(out, string(96, b'b'), string(96, b'b'))
}

fn uris<W: Write>(out: &mut W) -> io::Result<()> {
    compare(out, uri(40, b'a'), uri(41, b'a'))?;
    compare(out, uri(96, b'a'), uri(95, b'a'))?;
    compare(out, uri(96, b'b'), uri(96, b'Z'))?;
    compare(out, uri(96, b'b'), uri(96, b'b'))
}

// Patterns on strings, and on what str gives of a URI.
fn patterns<W: Write>(out: &mut W) -> io::Result<()> {
    show_on(out, b"^a*b$", string(40, b'b'))?;
    show_on(out, b"^a*b$", string(41, b'b'))?;
    show_on(out, b"^a*b$", string(95, b'b'))?;
    show_on(out, b"^a*b$", string(96, b'b'))?;
    show_on(out, b"^a*$", string(96, b'b'))?;
    show_on(out, b"b$", strings::text::text_of(uri(41, b'b')))?;
    show_on(out, b"b$", strings::text::text_of(uri(96, b'b')))?;
    show_on(out, b"b.", strings::text::text_of(uri(96, b'b')))
}

// 16 lines.
pub fn cases<W: Write>(out: &mut W) -> io::Result<()> {
    strings(out)?;
    uris(out)?;
    patterns(out)
}
