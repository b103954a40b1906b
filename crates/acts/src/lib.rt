// What the item on top of the stack does: success, a sequence, from named, and a block with its answer. A step gives the saved control after it, or why there is none.
#![tactic(auto)]

ghost use Rattle.std.specs.Prelude.{◌≡◌, ◌+◌, ◌≤◌};
ghost use Rattle.definitions.specs.Limits.{graph_limit};
ghost use Rattle.definitions.specs.Bytes.{byte};
ghost use Rattle.definitions.specs.Saved.{saved_store};
ghost use Rattle.laws.specs.Ends.{EndsLent};
ghost use Rattle.acts.specs.Steps.{OnTop, Acts, NameReads, NumberOf, BlockReads, BodyAt, answer_of, EntersOnce, EntersEach};

use definitions::{
    DEPTH_LIMIT, PAIR_LIMIT, QUERY_OFFSET, RunState, SavedControl, SavedItem, SavedStore,
};
use ends::after;
use fields::numbers::{index, number_at};
use reader::script::{read_name, read_script};
use store::canonical::first_numbers;
use store::graphs::is_fetched;
use store::stack::{bind_tuple, fresh_item, pop, replace, replace_and_push};

// Success is dropped.
// Ruled out: success that stays on top; two items dropped.
pub fn drop_success(
    run: SavedControl,
    script: &[u8],
    loaded: usize,
    at: usize,
) -> Result<SavedControl, RunState>
    requires on_top { OnTop script.now loaded run at }
    requires at_value { byte script.now at ≡ 0x71 }
    ensures { (x : OnTop script.now loaded run at) → Acts x result }
{
    Ok(pop(run))
}

// A sequence becomes its first script on top of its second.
// Ruled out: the second script on top; the sequence left below its scripts.
pub fn enter_sequence(
    run: SavedControl,
    script: &[u8],
    loaded: usize,
    at: usize,
) -> Result<SavedControl, RunState>
    requires on_top { OnTop script.now loaded run at }
    requires at_value { byte script.now at ≡ 0x74 }
    ensures { (x : OnTop script.now loaded run at) → Acts x result }
{
    let first = at + 1;
    let Some(second) = read_script(script, loaded, first, DEPTH_LIMIT) else {
        return Err(RunState::Ended);
    };
    let below = fresh_item(second as u16);
    let above = fresh_item(first as u16);
    Ok(replace_and_push(run, below, above))
}

// The term number that a name stands for: a variable's, or a constant's own.
fn number_of(run: SavedControl, script: &[u8], at: usize) -> u16
    requires { NameReads script.now at }
    ensures { NumberOf run script.now at result }
{
    let first = at + 1;
    let kind = script[at];
    if kind == 0x31 {
        let v = index(script[first]);
        return run.bindings[v];
    }
    number_at(script, first)
}

// From named a fetched graph becomes its script; another graph is wanted.
// Ruled out: a graph wanted that is fetched; a script entered whose graph is not.
pub fn enter_named(
    run: SavedControl,
    store: SavedStore,
    script: &[u8],
    loaded: usize,
    at: usize,
) -> Result<SavedControl, RunState>
    requires on_top { OnTop script.now loaded run at }
    requires at_value { byte script.now at ≡ 0x72 }
    requires graphs_le_graph_limit { store.graphs ≤ graph_limit }
    ensures { (x : OnTop script.now loaded run at) → store ≡ saved_store x.here.state.store → Acts x result }
{
    let name = at + 1;
    let Some(body) = read_name(script, loaded, name, DEPTH_LIMIT) else {
        return Err(RunState::Ended);
    };
    let graph = number_of(run, script, name);
    if is_fetched(store, graph) {
        let item = fresh_item(body as u16);
        return Ok(replace(run, item));
    }
    Err(RunState::Wanted(graph))
}

// The offset of a block's script, after its query.
// Ruled out: the query's own offset; the end of the block.
pub fn block_body(script: &[u8], ends: &[u16], loaded: usize, at: usize) -> usize
    requires block_reads { BlockReads script.now loaded at }
    requires ends_lent { EndsLent script.now ends.now }
    ensures { BodyAt script.now loaded at result }
{
    let query = at + QUERY_OFFSET;
    after(ends, script.len(), query)
}

// A once block binds its answer and becomes its script; with none it waits.
// Ruled out: a once block that stays below its script; one that is dropped where it has no answer.
pub fn enter_once(
    run: SavedControl,
    script: &[u8],
    loaded: usize,
    at: usize,
    body: usize,
    answer: Option<[u16; PAIR_LIMIT]>,
) -> Result<SavedControl, RunState>
    requires on_top { OnTop script.now loaded run at }
    requires at_value { byte script.now at ≡ 0x73 }
    requires body_at { BodyAt script.now loaded at body }
    ensures { (x : OnTop script.now loaded run at) → EntersOnce x (answer_of answer (byte script.now (at + 2))) result }
{
    let Some(tuple) = answer else {
        return Err(RunState::Waiting);
    };
    let second = at + 2;
    let pairs = at + 3;
    let count = index(script[second]);
    let bound = bind_tuple(run, script, pairs, count, tuple);
    let item = fresh_item(body as u16);
    Ok(replace(bound, item))
}

// An each block binds its answer and puts its script on top of itself; with none it is dropped.
// Ruled out: an each block that forgets the tuple it used; one that waits where it has no answer.
pub fn enter_each(
    run: SavedControl,
    script: &[u8],
    loaded: usize,
    at: usize,
    body: usize,
    answer: Option<[u16; PAIR_LIMIT]>,
) -> Result<SavedControl, RunState>
    requires on_top { OnTop script.now loaded run at }
    requires at_value { byte script.now at ≡ 0x73 }
    requires body_at { BodyAt script.now loaded at body }
    ensures { (x : OnTop script.now loaded run at) → EntersEach x (answer_of answer (byte script.now (at + 2))) result }
{
    let Some(tuple) = answer else {
        return Ok(pop(run));
    };
    let second = at + 2;
    let pairs = at + 3;
    let variables = script[second];
    let count = index(variables);
    let bound = bind_tuple(run, script, pairs, count, tuple);
    let last = first_numbers(variables, tuple);
    let place = at as u16;
    let used = SavedItem {
        at: place,
        started: true,
        last,
    };
    let item = fresh_item(body as u16);
    Ok(replace_and_push(bound, used, item))
}
