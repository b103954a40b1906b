// The store's half of soundness.
ghost use Rattle.std.specs.Prelude.{◌≡◌, true, ◌≤◌, length};
ghost use Rattle.definitions.specs.Limits.{quad_limit, quad_table_width};
ghost use Rattle.definitions.specs.Saved.{quads_from};
ghost use Rattle.soundness.specs.Store.{quads_test, store_test, InOrder};

use crate::graphs::graphs_sound;
use definitions::{GRAPH_LIMIT, SavedStore};
use quad_table::read_keys;
use sound_quads::{quads_held, quads_in_order, quads_sound};

// Whether quads and fetched graphs are sound; their keys are left in `keys`.
fn quads_and_graphs(
    quads: &[u8],
    n: usize,
    fetched: &[u16],
    leasts: &[u8],
    count: usize,
    keys: &mut [u64],
) -> bool
    requires quads_len { length quads.now ≡ quad_table_width }
    requires count_in_bounds { count ≤ length leasts.now }
    requires quad_limit_in_bounds { quad_limit ≤ length keys.old }
    ensures value { result ≡ quads_test quads.now n fetched.now leasts.now count }
    ensures in_order { result ≡ true → InOrder n keys.new (quads_from n quads.now 0) }
{
    if !quads_held(quads, n) {
        return false;
    }
    if !graphs_sound(leasts, count, fetched) {
        return false;
    }
    read_keys(quads, n, keys);
    if !quads_in_order(keys, n) {
        return false;
    }
    quads_sound(leasts, count, fetched, keys, n)
}

// Whether the quads and fetched graphs of a saved store are sound, over terms by their least types; their keys are left in `keys`.
// Ruled out: a quad of a graph that is not fetched; bytes after the last quad that are not zero.
pub fn store_sound(
    quads: &[u8],
    saved: SavedStore,
    leasts: &[u8],
    count: usize,
    keys: &mut [u64],
) -> bool
    requires quads_len { length quads.now ≡ quad_table_width }
    requires count_in_bounds { count ≤ length leasts.now }
    requires quad_limit_in_bounds { quad_limit ≤ length keys.old }
    ensures value { result ≡ store_test quads.now saved leasts.now count }
    ensures in_order { result ≡ true → InOrder saved.quads keys.new (quads_from saved.quads quads.now 0) }
{
    let graphs = saved.graphs as usize;
    if GRAPH_LIMIT < graphs {
        return false;
    }
    let n = saved.quads as usize;
    let fetched = saved.fetched;
    quads_and_graphs(quads, n, &fetched[..graphs], leasts, count, keys)
}
