// Language ranges on tags.
ghost use Rattle.std.specs.Prelude.{◌≤◌, length};
ghost use Rattle.definitions.specs.Limits.{language_range_width, tag_width};
ghost use Rattle.values.specs.Meaning.{Good};

use crate::print;
use cases::{made, rows};
use definitions::{LANGUAGE_RANGE_WIDTH, TAG_WIDTH};
use std::io::{self, Write};
use values::Value;

// One case: a range on a string, or on no value of that kind.
fn show_on<W: Write>(out: &mut W, range: &[u8], v: Value) -> io::Result<()>
    requires range_len_bound { length range.now ≤ language_range_width }
    requires good { Good v }
{
    let field: [u8; LANGUAGE_RANGE_WIDTH] = made::field(range);
    print::word(out, b"range ")?;
    print::word(out, range)?;
    print::word(out, b" on ")?;
    print::value(out, v)?;
    print::answer(out, strings::tests::lang_matches(v, &field, 0))
}

// One case: a range on a string with a tag.
fn show<W: Write>(out: &mut W, range: &[u8], tag: &[u8]) -> io::Result<()>
    requires range_len_bound { length range.now ≤ language_range_width }
    requires tag_len_bound { length tag.now ≤ tag_width }
{
    show_on(out, range, made::string(tag, b"a"))
}

// A row for each case: a range and a tag.
fn show_rows<W: Write>(out: &mut W, text: &[u8]) -> io::Result<()> {
    let mut at = 0;
    while at < text.len() {
        let end = rows::word_end(text, at, b'|', LANGUAGE_RANGE_WIDTH);
        let tag = rows::within(text, end);
        let last = rows::word_end(text, tag, b'\n', TAG_WIDTH);
        show(out, &text[at..end], &text[tag..last])?;
        at = rows::after(text, last);
    }
    Ok(())
}

// 20 lines.
pub fn cases<W: Write>(out: &mut W) -> io::Result<()> {
    // `*` refuses the empty tag, which str gives too, and accepts the others, also one of hyphens only.
    show_rows(out, b"*|\n*|en\n*|-\n*|--------\n")?;
    show_on(out, b"*", strings::text::text_of(made::integer(3)))?;
    show_on(
        out,
        b"*",
        strings::text::text_of(made::integer(1000000000001)),
    )?;
    // Another range accepts its own tag and tags that go on with a hyphen.
    show_rows(
        out,
        b"en|en\nen|en-gb\nen|eng\nen|fr\nen|\nen-gb|en\nen-gb|en-gb\nen-gb|en-gb-ox\n",
    )?;
    // A `-*` at the end counts for nothing, and a hyphen there counts.
    show_rows(
        out,
        b"en-*|en\nen-*|en-gb\nen-*|eng\nen-|en-gb\nen-|en--gb\nabcdefgh|abcdefgh\n",
    )
}
