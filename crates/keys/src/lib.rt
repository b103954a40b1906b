// A quad held as one number, its graph weighing most; keys in rising order, and the place of a number among them.
#![tactic(auto)]

ghost use Rattle.std.specs.Prelude.{◌≡◌, true, cond, ◌+◌, ◌≤◌, ◌<◌, length};
ghost use Rattle.laws.specs.Quads.{place_limit};
ghost use Rattle.keys.specs.Keys.{key_of, quad_of, keys_from, rising as is_rising, count_below, Splits};

// A quad's numbers are of 16 bits, and a key of 64. `Quads` in the specs of `laws` and `Keys` in those of this crate have the same names and numbers.
pub const PLACE_LIMIT: u64 = 65536;

pub const LAST_KEY: u64 = 18446744073709551615;

// What a property's number, a subject's and a graph's weigh in a key.
pub const PROPERTY_WEIGHT: u64 = PLACE_LIMIT;

pub const SUBJECT_WEIGHT: u64 = PLACE_LIMIT * PROPERTY_WEIGHT;

pub const GRAPH_WEIGHT: u64 = PLACE_LIMIT * SUBJECT_WEIGHT;

// So far the keys of a graph reach from the first to the last.
pub const GRAPH_REACH: u64 = GRAPH_WEIGHT - 1;

// The key of four numbers.
// Ruled out: subject and property exchanged; a subject that weighs more than the graph.
pub fn pack(graph: u64, subject: u64, property: u64, object: u64) -> u64
    requires graph_lt_place_limit { graph < place_limit }
    requires subject_lt_place_limit { subject < place_limit }
    requires property_lt_place_limit { property < place_limit }
    requires object_lt_place_limit { object < place_limit }
    ensures { result ≡ key_of (record { graph = graph; subject = subject; property = property; object = object }) }
{
    let a = graph * PLACE_LIMIT + subject;
    let b = a * PLACE_LIMIT + property;
    b * PLACE_LIMIT + object
}

// The number of a key's graph. Four functions of a line each: one over the weight would still need these four names, one for each field of a quad.
// Ruled out: a number in which the subject's is left; the subject's number.
pub fn graph_of(key: u64) -> usize
    ensures { (result ≡ (quad_of key).graph) × (result < place_limit) }
{
    (key / GRAPH_WEIGHT) as usize
}

// The number of a key's subject.
// Ruled out: a number in which the graph's is left; the property's number.
pub fn subject_of(key: u64) -> usize
    ensures { (result ≡ (quad_of key).subject) × (result < place_limit) }
{
    (key / SUBJECT_WEIGHT % PLACE_LIMIT) as usize
}

// The number of a key's property.
// Ruled out: a number in which the subject's is left; the object's number.
pub fn property_of(key: u64) -> usize
    ensures { (result ≡ (quad_of key).property) × (result < place_limit) }
{
    (key / PROPERTY_WEIGHT % PLACE_LIMIT) as usize
}

// The number of a key's object.
// Ruled out: a number in which the property's is left; the property's number.
pub fn object_of(key: u64) -> usize
    ensures { (result ≡ (quad_of key).object) × (result < place_limit) }
{
    (key % PLACE_LIMIT) as usize
}

// Whether keys rise strictly.
// Ruled out: equal neighbours that pass; a last key that is not looked at.
pub fn rising(keys: &[u64]) -> bool
    ensures { result ≡ is_rising keys.now }
{
    keys.is_sorted_by(|a, b| a < b)
}

// One of two, by a test.
pub fn either(first: bool, a: usize, b: usize) -> usize
    ensures { result ≡ cond first a b }
{
    if first { a } else { b }
}

// How many of the first n keys, which rise, are below x.
// Ruled out: a key equal to x counted; the last key left out.
pub fn lower(keys: &[u64], n: usize, x: u64) -> usize
    requires n_in_bounds { n ≤ length keys.now }
    requires keys_value { is_rising (keys_from n keys.now 0) ≡ true }
    ensures value { result ≡ count_below x (keys_from n keys.now 0) }
    ensures splits { Splits keys.now n x result }
{
    keys[..n].partition_point(|&key| key < x)
}

// How many of the first n keys, which rise, are at most x.
// Ruled out: a key equal to x left out; none counted where x is the last key that there is.
pub fn upper(keys: &[u64], n: usize, x: u64) -> usize
    requires n_in_bounds { n ≤ length keys.now }
    requires keys_value { is_rising (keys_from n keys.now 0) ≡ true }
    ensures value { result ≡ count_below (x + 1) (keys_from n keys.now 0) }
    ensures splits { Splits keys.now n (x + 1) result }
{
    if x == LAST_KEY {
        return n;
    }
    let next = x + 1;
    lower(keys, n, next)
}
