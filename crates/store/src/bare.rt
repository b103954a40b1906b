// What stands where nothing does: an item's place that is not in use, and a saved run in which nothing is bound, fetched or stored.
ghost use Rattle.std.specs.Prelude.{◌≡◌};
ghost use Rattle.definitions.specs.Saved.{zero_item};
ghost use Rattle.store.specs.Bare.{bare_run};

use crate::stack::fresh_item;
use definitions::{
    GRAPH_LIMIT, ITEM_LIMIT, SavedControl, SavedItem, SavedRun, SavedStore, VARIABLE_LIMIT,
};

// What stands in a place that is not in use. Ruled out: an item at another offset; one that has used a tuple.
pub fn zero_item() -> SavedItem
    ensures { result ≡ zero_item }
{
    fresh_item(0)
}

// Nothing is bound, fetched or stored; only so many of the stack's items count. Ruled out: a variable bound to term 0; a stack of another height.
pub fn bare_run(height: u16, types: [u8; VARIABLE_LIMIT]) -> SavedRun
    ensures { result ≡ bare_run height types }
{
    let item = zero_item();
    let control = SavedControl {
        height,
        types,
        bound: [false; VARIABLE_LIMIT],
        bindings: [0; VARIABLE_LIMIT],
        items: [item; ITEM_LIMIT],
    };
    let store = SavedStore {
        quads: 0,
        graphs: 0,
        fetched: [0; GRAPH_LIMIT],
    };
    SavedRun { control, store }
}
