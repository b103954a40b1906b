// The saved run as a call hands it back: what means nothing in the one that was lent is zero.
ghost use Rattle.std.specs.Prelude.{◌≡◌, ◌+◌, ◌≤◌, take};
ghost use Rattle.definitions.specs.Bytes.{byte, filled};
ghost use Rattle.store.specs.Canonical.{clean_item, clean_items, clean_bindings, canonical_control, canonical_store};
ghost use Rattle.definitions.specs.Limits.{depth_limit, graph_limit, pair_limit};

use crate::stack::fresh_item;
use definitions::{
    GRAPH_LIMIT, ITEM_LIMIT, PAIR_LIMIT, SavedControl, SavedItem, SavedStore, VARIABLE_LIMIT,
};

// The byte at an offset of the script, 0 past its end.
// Ruled out: a read past the script's end; the byte before the offset.
pub fn byte_at(script: &[u8], at: usize) -> u8
    ensures { result ≡ byte script.now at }
{
    if at < script.len() {
        return script[at];
    }
    0
}

// A tuple's first numbers, zeros after them.
// Ruled out: the fourth number of a pair of variables kept; the numbers in another order.
pub fn first_numbers(count: u8, numbers: [u16; PAIR_LIMIT]) -> [u16; PAIR_LIMIT]
    ensures { result ≡ filled pair_limit (take count numbers) }
{
    let n = (count as usize).min(PAIR_LIMIT);
    let mut kept = [0u16; PAIR_LIMIT];
    kept[..n].copy_from_slice(&numbers[..n]);
    kept
}

// Only an each block has a last tuple, a number for each of its variables.
fn clean_item(item: SavedItem, script: &[u8]) -> SavedItem
    ensures { result ≡ clean_item script.now item }
{
    let place = item.at;
    let at = place as usize;
    let started = item.started;
    let kind = byte_at(script, at);
    let mode = byte_at(script, at + 1);
    let count = byte_at(script, at + 2);
    if !started || kind != 0x73 || mode != 1 {
        return fresh_item(place);
    }
    let numbers = item.last;
    let last = first_numbers(count, numbers);
    SavedItem {
        at: place,
        started: true,
        last,
    }
}

// The items up to the height, none above it.
fn clean_items(
    height: u16,
    items: [SavedItem; ITEM_LIMIT],
    script: &[u8],
) -> [SavedItem; ITEM_LIMIT]
    requires { height ≤ depth_limit }
    ensures { result ≡ clean_items script.now height items }
{
    let n = height as usize;
    let empty = fresh_item(0);
    let mut clean = [empty; ITEM_LIMIT];
    for i in 0..n {
        clean[i] = clean_item(items[i], script);
    }
    clean
}

// The terms of the bound variables.
fn clean_bindings(
    bound: [bool; VARIABLE_LIMIT],
    bindings: [u16; VARIABLE_LIMIT],
) -> [u16; VARIABLE_LIMIT]
    ensures { result ≡ clean_bindings bound bindings }
{
    let mut clean = [0u16; VARIABLE_LIMIT];
    for v in 0..VARIABLE_LIMIT {
        clean[v] = if bound[v] { bindings[v] } else { 0 };
    }
    clean
}

// The graphs up to their count.
fn clean_fetched(graphs: u16, fetched: [u16; GRAPH_LIMIT]) -> [u16; GRAPH_LIMIT]
    requires { graphs ≤ graph_limit }
    ensures { result ≡ filled graph_limit (take graphs fetched) }
{
    let n = graphs as usize;
    let mut clean = [0u16; GRAPH_LIMIT];
    clean[..n].copy_from_slice(&fetched[..n]);
    clean
}

// The saved control of a call's end.
// Ruled out: the last tuple of an item that has none kept; the number of an unbound variable kept.
pub fn canonical_control(control: SavedControl, script: &[u8]) -> SavedControl
    requires { control.height ≤ depth_limit }
    ensures { result ≡ canonical_control script.now control }
{
    let types = control.types;
    let bound = control.bound;
    let numbers = control.bindings;
    let places = control.items;
    let bindings = clean_bindings(bound, numbers);
    let items = clean_items(control.height, places, script);
    SavedControl {
        height: control.height,
        types,
        bound,
        bindings,
        items,
    }
}

// The saved store of a call's end.
// Ruled out: a graph past the count kept; the last fetched graph dropped.
pub fn canonical_store(store: SavedStore) -> SavedStore
    requires { store.graphs ≤ graph_limit }
    ensures { result ≡ canonical_store store }
{
    let graphs = store.fetched;
    let fetched = clean_fetched(store.graphs, graphs);
    SavedStore {
        quads: store.quads,
        graphs: store.graphs,
        fetched,
    }
}
