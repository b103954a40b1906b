// Whether a number that a call is told is that of a graph: of a URI for a page (12), of a fetched one for a publish (22).
#![tactic(auto)]

ghost use Rattle.std.specs.Prelude.{◌≡◌, ◌&&◌, List, ◌≤◌, ltb, length, take};
ghost use Rattle.std.proofs.Math.ListN.{get_elem?};
ghost use Rattle.definitions.specs.Limits.{term_limit, graph_limit};
ghost use Rattle.definitions.specs.Lists.{is_in};
ghost use Rattle.definitions.specs.Terms.{Term, Schema};
ghost use Rattle.definitions.specs.Calls.{is_graph};
ghost use Rattle.laws.specs.Sorts.{LeastOf};

use definitions::SavedStore;
use sound_quads::is_uri;
use store::graphs::is_fetched;

// Whether a number is that of a URI among the terms in use (12). Ruled out: a number past the terms; that of a literal.
pub fn is_graph(leasts: &[u8], count: usize, graph: u64) -> bool
    requires count_in_bounds { count ≤ length leasts.now }
    requires count_le_term_limit { count ≤ term_limit }
    ensures { (S : Schema) (terms : List Term) → LeastOf S terms leasts.now → count ≡ length terms → result ≡ is_graph (get_elem? terms graph) }
{
    graph < count as u64 && is_uri(leasts, count, graph as u16)
}

// Whether a number is that of a term in use and in the fetched list (22).
// Ruled out: a number past the terms passed for fetched; a graph that is not in the list.
pub fn is_listed(store: SavedStore, count: usize, graph: u64) -> bool
    requires graphs_le_graph_limit { store.graphs ≤ graph_limit }
    requires count_le_term_limit { count ≤ term_limit }
    ensures { result ≡ (ltb graph count && is_in graph (take store.graphs store.fetched)) }
{
    graph < count as u64 && is_fetched(store, graph as u16)
}
