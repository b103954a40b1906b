// The verdict, read off the tables: no typing where two families are one, no greatest typing where something is left open,
// else the greatest type of each variable.
#![tactic(auto)]

ghost use Rattle.std.specs.Prelude.{◌≡◌, length, get_or, ◌<◌, ◌||◌, not};
ghost use Rattle.definitions.specs.Limits.{variable_limit};
ghost use Rattle.definitions.specs.Types.{datatype_code, type_code};
ghost use Rattle.definitions.specs.Typing.{unbound, is_open};
ghost use Rattle.codes.specs.TypeCodes.{datatype_of};
ghost use Rattle.facts.specs.Codes.{all_written};
ghost use Rattle.facts.specs.Infer.{all_below, of_family, apart, settled, tight, best, read_off};
ghost use Rattle.facts.specs.Walk.{Joined};
ghost use Rattle.facts.specs.Answers.{reported_at, reported_all, answer_of};

use definitions::{Refusal, VARIABLE_LIMIT};
use facts::noting::Tables;
use facts::{FAMILIES, RANGE_NODES, UNBOUND};

// Whether no two families are one.
fn apart(t: Tables) -> bool
    requires { Joined t }
    ensures { result ≡ apart t }
{
    let families = t.families;
    let strings = families.root(1) == 1;
    let numbers = families.root(2) == 2;
    let times = families.root(3) == 3;
    strings & (numbers & times)
}

// Whether no family of the variable is left open.
fn settled(t: Tables, x: usize) -> bool
    requires { Joined t × (x < variable_limit) }
    ensures { result ≡ settled t x }
{
    let families = t.families;
    let own = families.root(FAMILIES + x) < FAMILIES;
    let ranged = families.root(RANGE_NODES + x) < FAMILIES;
    own & (!t.property[x] | ranged)
}

// Whether a variable, if it is open, is settled.
fn closed(t: Tables, written: &[u8], x: usize) -> bool
    requires { Joined t × (x < variable_limit) × (length written.now ≡ variable_limit) }
    ensures { result ≡ not (is_open (get_or (all_written written.now) x unbound)) || settled t x }
{
    if written[x] != 0 {
        return true;
    }
    settled(t, x)
}

fn all_closed(t: Tables, written: &[u8]) -> bool
    requires { Joined t × (length written.now ≡ variable_limit) }
    ensures { result ≡ all_below variable_limit (λ x. not (is_open (get_or (all_written written.now) x unbound)) || settled t x) }
{
    for x in 0..VARIABLE_LIMIT {
        if !closed(t, written, x) {
            return false;
        }
    }
    true
}

// Whether a property and its object, if they are numbers, do not both take their greatest type, range(integer) and decimal.
fn tight(t: Tables, p: usize, x: usize) -> bool
    requires { Joined t × (p < variable_limit) × (x < variable_limit) }
    ensures { result ≡ tight t p x }
{
    let at = VARIABLE_LIMIT * p + x;
    if !t.edges[at] {
        return true;
    }
    let families = t.families;
    let numbers = families.root(RANGE_NODES + p) == 2;
    !numbers | (t.low[x] | t.high[p])
}

fn tight_with(t: Tables, p: usize) -> bool
    requires { Joined t × (p < variable_limit) }
    ensures { result ≡ all_below variable_limit (tight t p) }
{
    for x in 0..VARIABLE_LIMIT {
        if !tight(t, p, x) {
            return false;
        }
    }
    true
}

fn all_tight(t: Tables) -> bool
    requires { Joined t }
    ensures { result ≡ all_below variable_limit (λ p. all_below variable_limit (tight t p)) }
{
    for p in 0..VARIABLE_LIMIT {
        if !tight_with(t, p) {
            return false;
        }
    }
    true
}

// The datatype of a family, of the numbers the one given.
fn of_family(family: usize, number: u8) -> u8
    requires { datatype_code (datatype_of number) ≡ number }
    ensures { (result ≡ datatype_code (of_family family (datatype_of number))) × (result < 8) }
{
    match family {
        0 => 1,
        1 => 2,
        2 => number,
        _ => 4,
    }
}

// The greatest type that the tables allow a variable: the least range of a property, else the greatest datatype.
fn best(t: Tables, x: usize) -> u8
    requires { Joined t × (x < variable_limit) }
    ensures { result ≡ type_code (best t x) }
{
    let families = t.families;
    if t.property[x] {
        let ranged = families.root(RANGE_NODES + x);
        if t.high[x] {
            return 8 + of_family(ranged, 3);
        }
        return 8 + of_family(ranged, 5);
    }
    let own = families.root(FAMILIES + x);
    if t.low[x] {
        return of_family(own, 5);
    }
    of_family(own, 3)
}

// The reported type of a variable: 0 where it is unbound, the written type, or the greatest.
fn reported(t: Tables, written: &[u8], x: usize) -> u8
    requires { Joined t × (x < variable_limit) × (length written.now ≡ variable_limit) }
    ensures { result ≡ reported_at t (all_written written.now) x }
{
    let code = written[x];
    if code == 0 {
        return best(t, x);
    }
    if code == UNBOUND {
        return 0;
    }
    codes::normal(code)
}

fn all_reported(t: Tables, written: &[u8]) -> [u8; VARIABLE_LIMIT]
    requires { Joined t × (length written.now ≡ variable_limit) }
    ensures { result ≡ reported_all t (all_written written.now) }
{
    let mut types = [0; VARIABLE_LIMIT];
    for x in 0..VARIABLE_LIMIT {
        types[x] = reported(t, written, x);
    }
    types
}

// The answer that the tables of a whole script give.
// Ruled out: no typing for every script; the least types for the greatest.
pub fn read_off(t: Tables, written: &[u8]) -> Result<[u8; VARIABLE_LIMIT], Refusal>
    requires { Joined t × (length written.now ≡ variable_limit) }
    ensures { result ≡ answer_of (all_written written.now) (read_off t (all_written written.now)) }
{
    if !apart(t) {
        return Err(Refusal::NoTyping);
    }
    if !all_closed(t, written) || !all_tight(t) {
        return Err(Refusal::NoGreatest);
    }
    Ok(all_reported(t, written))
}
