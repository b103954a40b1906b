// The lowest open variable at which a type does, and the lowest type that does there.
#![tactic(auto)]

ghost use Rattle.std.specs.Prelude.{◌≡◌, length, get_or, ◌<◌};
ghost use Rattle.definitions.specs.Limits.{variable_limit};
ghost use Rattle.definitions.specs.Types.{type_code, plain, any_uri, all_types};
ghost use Rattle.definitions.specs.Scope.{variables};
ghost use Rattle.definitions.specs.Suggest.{lowest_type, lowest_in};
ghost use Rattle.definitions.specs.Calls.{suggest_answer};
ghost use Rattle.codes.specs.TypeCodes.{type_of};
ghost use Rattle.facts.specs.Codes.{all_written};
ghost use Rattle.facts.specs.Walk.{Joined};
ghost use Rattle.lowest_type.specs.Does.{does_in, code_of};

use definitions::{Suggested, VARIABLE_LIMIT};
use facts::noting::Tables;
use readoff::read_off;
use with_type::with_type;

// The ten types by their codes, in order.
const TYPES: usize = 10;

const CODES: [u8; TYPES] = [1, 2, 3, 4, 5, 9, 10, 11, 12, 13];

fn code_at(i: usize) -> u8
    requires { i < length all_types }
    ensures { result ≡ type_code (get_or all_types i (plain any_uri)) }
{
    CODES[i]
}

// Whether a type does at an open variable.
fn does(t: Tables, written: &[u8], x: usize, code: u8) -> bool
    requires { Joined t × (x < variable_limit) × (length written.now ≡ variable_limit) }
    ensures { result ≡ does_in t (all_written written.now) x (type_of code) }
{
    read_off(with_type(t, x, code), written).is_ok()
}

// The code of the lowest type that does at a variable, none where it is not open or none does.
fn lowest_type(t: Tables, written: &[u8], x: usize) -> Option<u8>
    requires { Joined t × (x < variable_limit) × (length written.now ≡ variable_limit) }
    ensures { result ≡ code_of (lowest_type (all_written written.now) (does_in t (all_written written.now)) x) }
{
    if written[x] != 0 {
        return None;
    }
    for i in 0..TYPES {
        let code = code_at(i);
        if does(t, written, x, code) {
            return Some(code);
        }
    }
    None
}

// The lowest open variable at which a type does, with the lowest that does there.
// Ruled out: codes tried from the top; a variable with a written type named.
pub fn lowest(t: Tables, written: &[u8]) -> Suggested
    requires { Joined t × (length written.now ≡ variable_limit) }
    ensures { Ok result ≡ suggest_answer (lowest_in (all_written written.now) (does_in t (all_written written.now)) variables) }
{
    for x in 0..VARIABLE_LIMIT {
        if let Some(code) = lowest_type(t, written, x) {
            return Suggested::Named(x as u8, code);
        }
    }
    Suggested::NoSingle
}
