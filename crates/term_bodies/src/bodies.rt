// Bodies of terms, by the kind of their record.
ghost use Rattle.std.specs.Prelude.{◌≡◌, length};
ghost use Rattle.definitions.specs.Terms.{of_term_kind};
ghost use Rattle.laws.specs.ReadAnswers.{is_some};
ghost use Rattle.fields.specs.Answers.{width_of, body_term};

use crate::texts::{tag_ok, text_ok, uri_ok};
use definitions::{
    DECIMAL_LIMIT, INTEGER_LIMIT, NUMBER_WIDTH, SECONDS_AFTER, SECONDS_BEFORE, TAG_WIDTH,
    TEXT_WIDTH,
};
use fields::numbers::{long_at, within};

// The length of a body, 0 for a kind that is no term's. Ruled out: a string's without its tag; a length for kind 16.
pub fn body_width(kind: u8) -> usize
    ensures { result ≡ width_of (of_term_kind kind) }
{
    match kind {
        0x11 => TEXT_WIDTH,
        0x12 => TAG_WIDTH + TEXT_WIDTH,
        0x13..=0x15 => NUMBER_WIDTH,
        _ => 0,
    }
}

// Whether a body of its kind's length says a term. Ruled out: a limit off by one; a bad tag let pass.
pub fn body_ok(kind: u8, body: &[u8]) -> bool
    requires { length body.now ≡ width_of (of_term_kind kind) }
    ensures { result ≡ is_some (body_term (of_term_kind kind) body.now) }
{
    match kind {
        0x11 => uri_ok(body),
        0x12 => tag_ok(&body[..TAG_WIDTH]) && text_ok(&body[TAG_WIDTH..]),
        0x13 => within(long_at(body, 0), INTEGER_LIMIT, INTEGER_LIMIT),
        0x14 => within(long_at(body, 0), DECIMAL_LIMIT, DECIMAL_LIMIT),
        0x15 => within(long_at(body, 0), SECONDS_BEFORE, SECONDS_AFTER),
        _ => false,
    }
}
