// The quad table: four 2-byte numbers for each quad, zeros after the last. In a call its quads are held as keys.
#![tactic(auto)]

ghost use Rattle.std.specs.Prelude.{◌≡◌, [], ◌∷◌, ◌+◌, ◌≤◌, ◌<◌, length};
ghost use Rattle.definitions.specs.Limits.{quad_width, quad_limit, quad_table_width};
ghost use Rattle.definitions.specs.Saved.{quad_bytes, quad_table, quad_at, quads_from};
ghost use Rattle.keys.specs.Keys.{key_of, quad_of, keys_from, rows_from, keys_of};
ghost use Rattle.quad_table.specs.Quads.{quad, quad_set};

use definitions::QUAD_WIDTH;
use fields::numbers::number_at;
use keys::{graph_of, object_of, pack, property_of, subject_of};

// A quad's eight bytes.
fn quad_bytes(graph: u16, subject: u16, property: u16, object: u16) -> [u8; 8]
    ensures { result ≡ quad_bytes (quad graph subject property object ∷ []) }
{
    let [g0, g1] = graph.to_le_bytes();
    let [s0, s1] = subject.to_le_bytes();
    let [p0, p1] = property.to_le_bytes();
    let [o0, o1] = object.to_le_bytes();
    [g0, g1, s0, s1, p0, p1, o0, o1]
}

// Writes a key's quad at its place.
fn put_key(table: &mut [u8], n: usize, key: u64)
    requires table_len { length table.old ≡ quad_table_width }
    requires n_lt_quad_limit { n < quad_limit }
    ensures { table.new ≡ quad_set table.old n (quad_of key) }
{
    let at = n * QUAD_WIDTH;
    let end = at + QUAD_WIDTH;
    let graph = graph_of(key) as u16;
    let subject = subject_of(key) as u16;
    let property = property_of(key) as u16;
    let object = object_of(key) as u16;
    let content = quad_bytes(graph, subject, property, object);
    table[at..end].copy_from_slice(&content);
}

// Writes the quads of keys into an empty table.
// Ruled out: a quad written over the one before; subject and object exchanged.
pub fn write_keys(keys: &[u64], table: &mut [u8])
    requires keys_len_bound { length keys.now ≤ quad_limit }
    requires table_value { table.old ≡ quad_table [] }
    ensures { table.new ≡ quad_table (rows_from (length keys.now) keys.now 0) }
{
    for (i, &key) in keys.iter().enumerate() {
        put_key(table, i, key);
    }
}

// The key of the quad at an offset.
fn key_at(table: &[u8], at: usize) -> u64
    requires { at + quad_width ≤ length table.now }
    ensures { result ≡ key_of (quad_at table.now at) }
{
    let graph = number_at(table, at) as u64;
    let subject = number_at(table, at + 2) as u64;
    let property = number_at(table, at + 4) as u64;
    let object = number_at(table, at + 6) as u64;
    pack(graph, subject, property, object)
}

// The keys of a table's first quads, in their order.
// Ruled out: a reading that leaves out the last quad; one that takes a quad's object for its graph.
pub fn read_keys(table: &[u8], count: usize, keys: &mut [u64])
    requires table_len { length table.now ≡ quad_table_width }
    requires count_le_quad_limit { count ≤ quad_limit }
    requires count_in_bounds { count ≤ length keys.old }
    ensures { keys_from count keys.new 0 ≡ keys_of (quads_from count table.now 0) }
{
    for i in 0..count {
        keys[i] = key_at(table, i * QUAD_WIDTH);
    }
}
