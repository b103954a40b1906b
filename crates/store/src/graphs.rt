// Operations on the saved store: its fetched list and its count of quads.
ghost use Rattle.std.specs.Prelude.{◌≡◌, true, ◌≤◌, take};
ghost use Rattle.definitions.specs.Limits.{graph_limit};
ghost use Rattle.definitions.specs.Lists.{is_in};
ghost use Rattle.store.specs.Graphs.{graph_fits, paged};

use definitions::{GRAPH_LIMIT, SavedStore};

// Whether a graph is in the fetched list.
// Ruled out: a graph found past the count; a look at the first graph alone.
pub fn is_fetched(store: SavedStore, graph: u16) -> bool
    requires { store.graphs ≤ graph_limit }
    ensures { result ≡ is_in graph (take store.graphs store.fetched) }
{
    let fetched = store.fetched;
    let n = store.graphs as usize;
    fetched[..n].contains(&graph)
}

// Whether a graph is in the fetched list or has room there.
// Ruled out: a 65th graph let in; a fetched graph refused where the list is full.
pub fn graph_fits(store: SavedStore, graph: u16) -> bool
    requires { store.graphs ≤ graph_limit }
    ensures { result ≡ graph_fits store graph }
{
    let n = store.graphs;
    is_fetched(store, graph) | ((n as usize) < GRAPH_LIMIT)
}

// After a page: its graph is fetched, and there are so many quads.
// Ruled out: a fetched graph listed twice; a quad count that stays.
pub fn with_page(store: SavedStore, graph: u16, quads: u16) -> SavedStore
    requires graphs_le_graph_limit { store.graphs ≤ graph_limit }
    requires graph_value { graph_fits store graph ≡ true }
    ensures { result ≡ paged store graph quads }
{
    let mut next = store;
    next.quads = quads;
    if is_fetched(store, graph) {
        return next;
    }
    let n = store.graphs;
    let place = n as usize;
    next.fetched[place] = graph;
    next.graphs = n + 1;
    next
}
