// Booleans of a script: true, false or unknown.
#![tactic(auto)]

ghost use Rattle.std.specs.Prelude.{◌≡◌, cond};
ghost use Rattle.definitions.specs.Truth.{not_truth, and_truth, or_truth, is_true};
ghost use Rattle.truth.specs.Told.{told_of};

use definitions::Truth;

// What a test tells. Ruled out: false where it holds no value; true where it fails.
pub fn told(present: bool, holds: bool) -> Truth
    ensures { result ≡ told_of present holds }
{
    match (present, holds) {
        (false, _) => Truth::Unknown,
        (true, true) => Truth::True,
        (true, false) => Truth::False,
    }
}

// Ruled out: unknown made true; false kept.
#[tactic(auto, unfolding(definitions::specs::Truth::not_truth))]
pub fn not_of(a: Truth) -> Truth
    ensures { result ≡ not_truth a }
{
    match a {
        Truth::True => Truth::False,
        Truth::False => Truth::True,
        Truth::Unknown => Truth::Unknown,
    }
}

// Ruled out: unknown and false made unknown; true and unknown made true.
#[tactic(auto, unfolding(definitions::specs::Truth::and_truth))]
pub fn and_of(a: Truth, b: Truth) -> Truth
    ensures { result ≡ and_truth a b }
{
    match (a, b) {
        (Truth::False, _) | (_, Truth::False) => Truth::False,
        (Truth::True, Truth::True) => Truth::True,
        (Truth::Unknown, _) | (_, Truth::Unknown) => Truth::Unknown,
    }
}

// Ruled out: unknown or false made false; unknown or true made unknown.
#[tactic(auto, unfolding(definitions::specs::Truth::or_truth))]
pub fn or_of(a: Truth, b: Truth) -> Truth
    ensures { result ≡ or_truth a b }
{
    match (a, b) {
        (Truth::True, _) | (_, Truth::True) => Truth::True,
        (Truth::False, Truth::False) => Truth::False,
        (Truth::Unknown, _) | (_, Truth::Unknown) => Truth::Unknown,
    }
}

// Whether a boolean is true, or, where that is wanted, false. Ruled out: unknown taken for false; false taken for true.
pub fn comes_to(a: Truth, want: bool) -> bool
    ensures { result ≡ is_true (cond want a (not_truth a)) }
{
    is_true(if want { a } else { not_of(a) })
}

// Whether a filter holds. Ruled out: one that holds on unknown; one that holds on false alone.
#[tactic(auto, unfolding(definitions::specs::Truth::is_true))]
pub fn is_true(a: Truth) -> bool
    ensures { result ≡ is_true a }
{
    matches!(a, Truth::True)
}
