// Values of the terms in the term table's slots.
#![tactic(auto)]

ghost use Rattle.std.specs.Prelude.{◌≡◌, ◌+◌, ◌≤◌, length};
ghost use Rattle.std.proofs.Math.Option.{some};
ghost use Rattle.definitions.specs.Limits.{number_width, slot_width};
ghost use Rattle.definitions.specs.Bytes.{part, signed, little};
ghost use Rattle.definitions.specs.Terms.{Term};
ghost use Rattle.definitions.specs.Saved.{slot_term};
ghost use Rattle.definitions.specs.Values.{value_of};
ghost use Rattle.values.specs.NumberKinds.{held};
ghost use Rattle.values.specs.Means.{Holds};

use definitions::{SLOT_WIDTH, TAG_WIDTH, TEXT_WIDTH};
use fields::numbers;
use values::arithmetic::numeric;
use values::{ANY_URI, DATE_TIME, DECIMAL, INTEGER, STRING, Value};

// Where a string's text begins: after its kind and tag.
const TEXT_OFFSET: usize = 1 + TAG_WIDTH;

// The bytes of a field.
fn field_at<const N: usize>(slot: &[u8], at: usize) -> [u8; N]
    requires { at + N ≤ length slot.now }
    ensures { result ≡ part slot.now at N }
{
    let mut field = [0u8; N];
    let end = at + N;
    field.copy_from_slice(&slot[at..end]);
    field
}

// The number after the kind, as a value of a kind.
fn number_of(slot: &[u8], kind: u8) -> Value
    requires { 1 + number_width ≤ length slot.now }
    ensures { result ≡ held kind (some (signed (little (part slot.now 1 number_width)))) }
{
    numeric(kind, true, numbers::to_signed(numbers::long_at(slot, 1)))
}

// The value of the term in a slot. Where the slot holds one, a kind that is none of the first four is a date_time's.
fn in_slot(slot: &[u8]) -> Value
    requires { length slot.now ≡ slot_width }
    ensures { (t : Term) → slot_term slot.now ≡ some t → Holds result (value_of t) }
{
    match slot[0] {
        0x11 => Value {
            kind: ANY_URI,
            present: true,
            number: 0,
            tag: [0; TAG_WIDTH],
            text: field_at(slot, 1),
        },
        0x12 => Value {
            kind: STRING,
            present: true,
            number: 0,
            tag: field_at(slot, 1),
            text: field_at(slot, TEXT_OFFSET),
        },
        0x13 => number_of(slot, INTEGER),
        0x14 => number_of(slot, DECIMAL),
        _ => number_of(slot, DATE_TIME),
    }
}

// The value of the term in the slot of a term table that begins at an offset.
// Ruled out: the value of the slot before; a decimal read as an integer.
pub fn value_at(table: &[u8], at: usize) -> Value
    requires { at + slot_width ≤ length table.now }
    ensures { (t : Term) → slot_term (part table.now at slot_width) ≡ some t → Holds result (value_of t) }
{
    let end = at + SLOT_WIDTH;
    in_slot(&table[at..end])
}
