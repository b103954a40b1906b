// Patterns on texts.
ghost use Rattle.std.specs.Prelude.{◌≤◌, length};
ghost use Rattle.definitions.specs.Limits.{pattern_width, text_width};
ghost use Rattle.values.specs.Meaning.{Good};

use crate::print;
use cases::{made, rows};
use definitions::{PATTERN_WIDTH, TEXT_WIDTH};
use std::io::{self, Write};
use values::Value;

// One case: a pattern on a string, or on no value of that kind.
pub fn show_on<W: Write>(out: &mut W, pattern: &[u8], v: Value) -> io::Result<()>
    requires pattern_len_bound { length pattern.now ≤ pattern_width }
    requires good { Good v }
{
    let field: [u8; PATTERN_WIDTH] = made::field(pattern);
    print::word(out, b"pattern /")?;
    print::word(out, pattern)?;
    print::word(out, b"/ on ")?;
    print::value(out, v)?;
    print::answer(out, strings::tests::regex(v, &field, 0))
}

// One case: a pattern on a string with no tag.
fn show<W: Write>(out: &mut W, pattern: &[u8], text: &[u8]) -> io::Result<()>
    requires pattern_len_bound { length pattern.now ≤ pattern_width }
    requires text_len_bound { length text.now ≤ text_width }
{
    show_on(out, pattern, made::string(b"", text))
}

// A row for each case: a pattern and a text.
fn show_rows<W: Write>(out: &mut W, text: &[u8]) -> io::Result<()> {
    let mut at = 0;
    while at < text.len() {
        let end = rows::word_end(text, at, b'|', PATTERN_WIDTH);
        let second = rows::within(text, end);
        let last = rows::word_end(text, second, b'\n', TEXT_WIDTH);
        show(out, &text[at..end], &text[second..last])?;
        at = rows::after(text, last);
    }
    Ok(())
}

// 32 lines.
pub fn cases<W: Write>(out: &mut W) -> io::Result<()> {
    // Literal bytes and `.`; some part of the text has to fit, and the empty pattern fits all.
    show_rows(
        out,
        b"|\n|abc\nb|abc\nac|abc\nA|abc\na.c|abc\na.c|ac\n...|ab\n",
    )?;
    // `^` and `$`.
    show_rows(
        out,
        b"^a|abc\n^b|abc\nc$|abc\nb$|abc\n^abc$|abc\n^ab$|abc\n^$|\n^$|a\n^|abc\n$|abc\n",
    )?;
    // `*`: none, one or many, and no more of them than the rest leaves.
    show_rows(
        out,
        b"ab*c|ac\nab*c|abbbc\nab*c|adc\nx*|abc\n^a*$|\n^a*$|aab\n^a*ab$|aaab\n^.*c$|abcabc\n^a.*c$|abd\n^a*b*c*$|aacc\n",
    )?;
    // A pattern that fills its field, on longer texts.
    show_rows(
        out,
        b"abcdefghijklmnop|abcdefghijklmnop\n^.*.*.*.*.*.*.*$|aaaaaaaaaaaaaaaaaaaaaaaaaaaaaaaaaaaaaaaa\n^a*a*a*a*a*a*b$|aaaaaaaaaaaaaaaaaaaaaaaaaaaaaaaaaaaaaaaa\n",
    )?;
    // No value: unknown, also under the pattern that accepts every text.
    show_on(
        out,
        b"",
        strings::text::text_of(made::integer(1000000000001)),
    )
}
