// The publish call: refusals 1, 10, 22 and 23 in this order, then the page of a graph.
#![tactic(auto)]

ghost use Rattle.std.specs.Prelude.{◌≡◌, List, ℕ};
ghost use Rattle.definitions.specs.Calls.{publish_call};
ghost use Rattle.lengths.specs.Lent.{lent_of};

use definitions::{PublishAnswer, QUAD_LIMIT, Refusal, SavedRun, TERM_LIMIT};
use entry::sound;
use graph_tests::is_listed;
use keys::{GRAPH_REACH, GRAPH_WEIGHT, lower, upper};
use lengths::both_fit;
use page_writing::publish_keys;

// The publish call: the page's length, and the page at the front of the buffer, of which the rest is untouched; a refusal leaves all of it.
// Ruled out: a graph published that is not fetched; the quads of another graph published with it.
pub fn publish(
    terms: &[u8],
    schema: &[u8],
    script: &[u8],
    table: &[u8],
    store: &[u8],
    saved: SavedRun,
    graph: u64,
    out: &mut [u8],
) -> PublishAnswer
    ensures { (ranks : List ℕ)
        → publish_call (lent_of ranks terms.now schema.now script.now table.now store.now) saved graph out.old
        ≡ record { returned = result; page = out.new } }
{
    if !both_fit(table, store) {
        return Err(Refusal::WrongLength);
    }
    let mut keys = [0u64; QUAD_LIMIT];
    let mut leasts = [0u8; TERM_LIMIT];
    let entered = sound(
        terms,
        schema,
        script,
        table,
        store,
        saved,
        &mut keys,
        &mut leasts,
    )?;
    let kept = saved.store;
    if !is_listed(kept, entered.count, graph) {
        return Err(Refusal::NotFetched);
    }
    let n = kept.quads as usize;
    let first = graph * GRAPH_WEIGHT;
    let last = first + GRAPH_REACH;
    let low = lower(&keys, n, first);
    let high = upper(&keys, n, last);
    publish_keys(table, &mut keys[low..high], out)
}
