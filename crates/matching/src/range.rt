// Language ranges in their fields, compared with tags.
ghost use Rattle.std.specs.Prelude.{◌≡◌, ◌<◌, T, length};
ghost use Rattle.std.proofs.Math.Option.{some};
ghost use Rattle.definitions.specs.Limits.{language_range_width, tag_width};
ghost use Rattle.definitions.specs.Lists.{every};
ghost use Rattle.definitions.specs.Bytes.{unfilled};
ghost use Rattle.definitions.specs.Terms.{tag_byte};
ghost use Rattle.definitions.specs.Text.{LanguageRange, language_range_of, matches, without_star, goes_on};
ghost use Rattle.matching.specs.Ranges.{ends_at};

use definitions::LANGUAGE_RANGE_WIDTH;

const HYPHEN: u8 = b'-';

const STAR: u8 = b'*';

// Whether a range ends at a place: at a zero, or at a `-*`.
fn ends(range: &[u8], i: usize) -> bool
    requires range_len { length range.now ≡ language_range_width }
    requires i_lt_language_range_width { i < language_range_width }
    ensures { result ≡ ends_at range.now i }
{
    match range[i] {
        0 => true,
        HYPHEN => i + 1 < LANGUAGE_RANGE_WIDTH && range[i + 1] == STAR,
        _ => false,
    }
}

// Whether a tag is a range's own, or goes on with a hyphen; a `-*` at the range's end counts for nothing.
fn goes_on(range: &[u8], tag: &[u8]) -> bool
    requires range_len { length range.now ≡ language_range_width }
    requires tag_len { length tag.now ≡ tag_width }
    ensures { T (every tag_byte (without_star (unfilled range.now))) → result ≡ goes_on (without_star (unfilled range.now)) (unfilled tag.now) }
{
    for i in 0..LANGUAGE_RANGE_WIDTH {
        let b = tag[i];
        if ends(range, i) {
            return b == 0 || b == HYPHEN;
        }
        if range[i] != b {
            return false;
        }
    }
    true
}

// Whether a range accepts a tag. Ruled out: en that accepts eng; `*` that accepts the empty tag.
pub fn accepts(range: &[u8], tag: &[u8]) -> bool
    requires range_len { length range.now ≡ language_range_width }
    requires tag_len { length tag.now ≡ tag_width }
    ensures { (q : LanguageRange) → language_range_of range.now ≡ some q → result ≡ matches q (unfilled tag.now) }
{
    if range[0] == STAR {
        return tag[0] != 0;
    }
    goes_on(range, tag)
}
