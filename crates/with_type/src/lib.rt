// The tables of a script, as they would be with a type written at a variable that is open in them.
#![tactic(auto)]

ghost use Rattle.std.specs.Prelude.{◌≡◌, ◌<◌};
ghost use Rattle.definitions.specs.Limits.{variable_limit};
ghost use Rattle.codes.specs.TypeCodes.{type_of};
ghost use Rattle.laws.specs.Lists.{flag};
ghost use Rattle.facts.specs.Tables.{edge_limit};
ghost use Rattle.facts.specs.Walk.{Joined};
ghost use Rattle.with_type.specs.WithType.{pair_at, flagged, leaves, with_type};

use definitions::VARIABLE_LIMIT;
use facts::EDGES;
use facts::noting::Tables;

// Where the flag of a variable and another stands: of a property and its object, or of an object and its property.
fn pair_at(objects: bool, x: usize, other: usize) -> usize
    requires { (x < variable_limit) × (other < variable_limit) }
    ensures { (result ≡ pair_at objects x other) × (result < edge_limit) }
{
    if objects {
        return VARIABLE_LIMIT * x + other;
    }
    VARIABLE_LIMIT * other + x
}

// Flags, and one more for each object of a property, or for each property of an object.
fn flagged(
    flags: [bool; VARIABLE_LIMIT],
    edges: [bool; EDGES],
    objects: bool,
    x: usize,
) -> [bool; VARIABLE_LIMIT]
    requires { x < variable_limit }
    ensures { result ≡ flagged flags (λ other. flag edges (pair_at objects x other)) }
{
    let mut more = [false; VARIABLE_LIMIT];
    for other in 0..VARIABLE_LIMIT {
        let at = pair_at(objects, x, other);
        more[other] = flags[other] | edges[at];
    }
    more
}

// Whether the flags of a variable leave it a type.
fn leaves(t: Tables, x: usize, code: u8) -> bool
    requires { x < variable_limit }
    ensures { result ≡ leaves t x (type_of code) }
{
    if code < 8 {
        let number = t.low[x] & (code == 3);
        return !(t.property[x] | number);
    }
    let range = code - 8;
    !(t.high[x] & (range == 5))
}

// A type noted at a variable, by its code.
// Ruled out: decimal noted, and its properties left with the range integer; a datatype noted at a property.
pub fn with_type(t: Tables, x: usize, code: u8) -> Tables
    requires { Joined t × (x < variable_limit) }
    ensures { (result ≡ with_type x (type_of code) t) × Joined result }
{
    if !leaves(t, x, code) {
        return t.impossible();
    }
    if code < 8 {
        let mut tables = t.at_most(x, code);
        if code == 3 {
            // the range of every property of the object is decimal
            tables.high = flagged(tables.high, tables.edges, false, x);
            return tables;
        }
        return tables;
    }
    let range = code - 8;
    let mut tables = t.at_least(x, range);
    if range == 5 {
        // the datatype of every object of the property is integer
        tables.low = flagged(tables.low, tables.edges, true, x);
        return tables;
    }
    tables
}
