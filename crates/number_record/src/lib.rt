// The record of the term that a number's text reads as.
#![tactic(auto)]

ghost use Rattle.std.specs.Prelude.{◌≡◌, ◌∷◌, length};
ghost use Rattle.definitions.specs.Bytes.{little_bytes};
ghost use Rattle.definitions.specs.Numbers.{term_read};
ghost use Rattle.definitions.specs.Limits.{number_width, number_record_width};
ghost use Rattle.definitions.specs.Exports.{record_after};

use definitions::{NUMBER_RECORD_WIDTH, Number, NumberAnswer};
use layout::writing;

// A number's record.
fn write_record(kind: u8, n: u64, out: &mut [u8])
    requires { length out.old ≡ number_record_width }
    ensures { out.new ≡ kind ∷ little_bytes number_width n }
{
    out[0] = kind;
    writing::write_number(n, &mut out[1..NUMBER_RECORD_WIDTH]);
}

// The record of the term that a text reads as; a refused call leaves the record as it was.
pub fn write_term(answer: NumberAnswer, out: &mut [u8])
    requires { length out.old ≡ number_record_width }
    ensures { out.new ≡ record_after out.old (term_read answer) }
{
    let Ok(number) = answer else {
        return;
    };
    match number {
        Number::Integer(n) => write_record(0x13, n, out),
        Number::Decimal(n) => write_record(0x14, n, out),
    }
}
