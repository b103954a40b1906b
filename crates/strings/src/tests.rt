// Tests of strings: language ranges on tags, patterns on texts.
ghost use Rattle.std.specs.Prelude.{◌≡◌, ◌+◌, ◌≤◌, length};
ghost use Rattle.std.proofs.Math.Option.{some};
ghost use Rattle.definitions.specs.Limits.{language_range_width, pattern_width};
ghost use Rattle.definitions.specs.Bytes.{part};
ghost use Rattle.definitions.specs.Text.{LanguageRange, language_range_of, matches, Pattern, pattern_of, accepts};
ghost use Rattle.values.specs.Meaning.{meaning, Good, Tells, text_test};

use definitions::{LANGUAGE_RANGE_WIDTH, PATTERN_WIDTH, Truth};
use matching::{pattern, range};
use truth::told;
use values::Value;

// Whether a language range, in the bytes of a script from an offset on, accepts a string's tag.
// Ruled out: en that accepts the tag eng; `*` that accepts a string with no tag.
pub fn lang_matches(v: Value, script: &[u8], at: usize) -> Truth
    requires good { Good v }
    requires language_range_width_in_bounds { at + language_range_width ≤ length script.now }
    ensures { (q : LanguageRange) → language_range_of (part script.now at language_range_width) ≡ some q → Tells result (text_test (λ s. matches q s.tag) (meaning v)) }
{
    let end = at + LANGUAGE_RANGE_WIDTH;
    told(v.present, range::accepts(&script[at..end], &v.tag))
}

// Whether a pattern, in the bytes of a script from an offset on, accepts a string's text.
// Ruled out: a pattern that has to fit the whole text; ^ and $ taken for literal bytes.
pub fn regex(v: Value, script: &[u8], at: usize) -> Truth
    requires good { Good v }
    requires pattern_width_in_bounds { at + pattern_width ≤ length script.now }
    ensures { (p : Pattern) → pattern_of (part script.now at pattern_width) ≡ some p → Tells result (text_test (λ s. accepts p s.text) (meaning v)) }
{
    let end = at + PATTERN_WIDTH;
    told(v.present, pattern::accepts(&script[at..end], &v.text))
}
