// Names in the script's bytes. `leasts` has a byte for each term: the code of its least type. `written` has a byte for each
// variable: 0 open, 255 unbound, else the code of its type.
ghost use Rattle.std.specs.Prelude.{◌≡◌, length, ◌<◌};
ghost use Rattle.definitions.specs.Limits.{variable_limit};
ghost use Rattle.definitions.specs.Tree.{var};
ghost use Rattle.definitions.specs.Reading.{read_name};
ghost use Rattle.laws.specs.Walks.{Loads, Walked};
ghost use Rattle.facts.specs.Tables.{node_limit, place_node};
ghost use Rattle.facts.specs.Codes.{place_of, PlaceIn};
ghost use Rattle.facts.specs.Walk.{PlacedAs};

use crate::NameRead;
use facts::{FAMILIES, Place, UNBOUND};
use fields::numbers::word_at;

// A variable's place: open, or known by its written type; an unbound one stands as any_uri.
fn variable_place(leasts: &[u8], written: &[u8], x: usize) -> Place
    requires { (length written.now ≡ variable_limit) × (x < variable_limit) }
    ensures { PlacedAs leasts.now written.now result (var x) }
{
    let code = written[x];
    if code == 0 {
        return Place::Variable(x);
    }
    if code == UNBOUND {
        return Place::Known(1);
    }
    Place::Known(code)
}

// The name at an offset.
// Ruled out: a constant's number taken for a variable's; an offset after the kind alone.
pub fn name_at(script: &[u8], leasts: &[u8], written: &[u8], at: usize, left: u8) -> NameRead
    requires loads { Loads (read_name script.now (length leasts.now) left at) }
    requires written_len { length written.now ≡ variable_limit }
    ensures { Walked (PlacedAs leasts.now written.now result.place) (read_name script.now (length leasts.now) left at) result.next }
{
    let kind = script[at];
    let first = at + 1;
    if kind == 0x31 {
        let x = script[first] as usize;
        let place = variable_place(leasts, written, x);
        let next = at + 2;
        return NameRead { next, place };
    }
    let number = word_at(script, first);
    let code = leasts[number];
    let place = Place::Known(code);
    let next = at + 3;
    NameRead { next, place }
}

// The node of a place's family.
// Ruled out: a range variable's node for its own; a known range in the family of its datatype.
pub fn node_of(place: Place) -> usize
    requires { PlaceIn place }
    ensures { (result ≡ place_node (place_of place)) × (result < node_limit) }
{
    match place {
        Place::Variable(x) => FAMILIES + x,
        Place::Known(code) => codes::family(codes::own(code)),
    }
}
