// The quads of a sound store: as many as the table holds, in order, and each well typed, by the codes of the least types of its terms.
#![tactic(auto)]

ghost use Rattle.std.specs.Prelude.{◌≡◌, ◌≤◌, length};
ghost use Rattle.definitions.specs.Limits.{quad_table_width};
ghost use Rattle.definitions.specs.Lists.{every};
ghost use Rattle.definitions.specs.Machine.{in_order};
ghost use Rattle.definitions.specs.Saved.{quads_in};
ghost use Rattle.keys.specs.Keys.{quad_of, rows_from};
ghost use Rattle.laws.specs.ReadAnswers.{is_some};
ghost use Rattle.sound_quads.specs.TermNumbers.{uri_number, pair_numbers, quad_numbers};

use codes::has_type;
use definitions::{QUAD_LIMIT, QUAD_WIDTH};
use fields::numbers::is_zero;
use keys::{graph_of, object_of, property_of, rising, subject_of};
use table::hashes::is_in;

// Whether a table holds so many quads. Ruled out: bytes after the last that are not zero; 513 quads.
pub fn quads_held(table: &[u8], n: usize) -> bool
    requires { length table.now ≡ quad_table_width }
    ensures { result ≡ is_some (quads_in n table.now) }
{
    if QUAD_LIMIT < n {
        return false;
    }
    let end = QUAD_WIDTH * n;
    is_zero(&table[end..])
}

// Whether the quads of the first keys stand in order. Ruled out: two quads exchanged; a quad that stands twice.
pub fn quads_in_order(keys: &[u64], n: usize) -> bool
    requires { n ≤ length keys.now }
    ensures { result ≡ in_order (rows_from n keys.now 0) }
{
    rising(&keys[..n])
}

// Whether a number is that of a URI. Ruled out: a number past the terms; a schema URI refused.
#[tactic(auto, unfolding(crate::specs::TermNumbers::uri_number))]
pub fn is_uri(leasts: &[u8], count: usize, i: u16) -> bool
    requires { count ≤ length leasts.now }
    ensures { result ≡ uri_number leasts.now count i }
{
    let at = i as usize;
    at < count && (leasts[at] == 1 || 9 <= leasts[at])
}

// Whether a property is one of the schema, and the object of its datatype.
#[tactic(auto, unfolding(crate::specs::TermNumbers::pair_numbers))]
fn pair_fits(leasts: &[u8], count: usize, property: u16, object: u16) -> bool
    requires { count ≤ length leasts.now }
    ensures { result ≡ pair_numbers leasts.now count property object }
{
    let p = property as usize;
    let o = object as usize;
    p < count && o < count && 9 <= leasts[p] && has_type(leasts[o], leasts[p] - 8)
}

// Whether a key's quad is well typed, in a fetched graph.
#[tactic(auto, unfolding(crate::specs::TermNumbers::quad_numbers))]
fn quad_sound(leasts: &[u8], count: usize, fetched: &[u16], key: u64) -> bool
    requires { count ≤ length leasts.now }
    ensures { result ≡ quad_numbers leasts.now count fetched.now (quad_of key) }
{
    let graph = graph_of(key) as u16;
    let subject = subject_of(key) as u16;
    let property = property_of(key) as u16;
    let object = object_of(key) as u16;
    is_in(fetched, graph)
        && is_uri(leasts, count, graph)
        && is_uri(leasts, count, subject)
        && pair_fits(leasts, count, property, object)
}

// Whether each quad is well typed, in a fetched graph.
// Ruled out: a quad of a graph that is not fetched; an object that is not of its property's datatype.
pub fn quads_sound(leasts: &[u8], count: usize, fetched: &[u16], keys: &[u64], n: usize) -> bool
    requires count_in_bounds { count ≤ length leasts.now }
    requires n_in_bounds { n ≤ length keys.now }
    ensures { result ≡ every (quad_numbers leasts.now count fetched.now) (rows_from n keys.now 0) }
{
    keys[..n]
        .iter()
        .all(|&key| quad_sound(leasts, count, fetched, key))
}
