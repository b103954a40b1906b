// A step of the machine, and a run: step after step, up to the budget.
ghost use Rattle.std.specs.Prelude.{◌≡◌, ◌≤◌, length};
ghost use Rattle.definitions.specs.Bytes.{byte};
ghost use Rattle.acts.specs.Steps.{Standing, Top};
ghost use Rattle.answers.specs.Lends.{LendsStore, LendsIn, LendsStoreIn};
ghost use Rattle.definitions.specs.Limits.{script_limit};
ghost use Rattle.machine.specs.Running.{ActsNow, StepOf, LookOf, RunOf, each_on};

use crate::Stopped;
use acts::{block_body, drop_success, enter_each, enter_named, enter_once, enter_sequence};
use answers::block_answer;
use definitions::{RunState, SCRIPT_LIMIT, SavedControl, SavedStore};
use ends::fill_ends;
use query::{Context, View};
use store::stack::top;

// A block: its answer now, and what it does with it.
fn enter_block(run: SavedControl, view: &View<'_>, at: usize) -> Result<SavedControl, RunState>
    requires top { (w : LendsIn view.now run) × Top w.here at }
    requires at_value { byte view.now.script.now at ≡ 0x73 }
    ensures { (w : LendsIn view.now run) (t : Top w.here at) → ActsNow w t result }
{
    let script = view.script;
    let loaded = view.context.loaded;
    let answer = block_answer(run, view, at);
    let body = block_body(script, view.ends, loaded, at);
    if script[at + 1] == 1 {
        return enter_each(run, script, loaded, at, body, answer);
    }
    enter_once(run, script, loaded, at, body, answer)
}

// One step, or none and why.
// Ruled out: a step that says waiting or spent where the machine has one to take; one that keeps the stack as it was.
pub fn step(run: SavedControl, store: SavedStore, view: &View<'_>) -> Result<SavedControl, RunState>
    requires lends_store { LendsStoreIn view.now run store }
    ensures { (w : LendsStoreIn view.now run store) → StepOf w.lends result }
{
    if run.height == 0 {
        return Err(RunState::Ended);
    }
    // the top item's offset, read in place: a call would copy the whole control
    let under = (run.height - 1) as usize;
    let at = run.items[under].at as usize;
    let script = view.script;
    let loaded = view.context.loaded;
    match script[at] {
        0x71 => drop_success(run, script, loaded, at),
        0x72 => enter_named(run, store, script, loaded, at),
        0x74 => enter_sequence(run, script, loaded, at),
        _ => enter_block(run, view, at),
    }
}

// Whether an each block is on top.
fn each_on_top(run: SavedControl, script: &[u8], loaded: usize) -> bool
    requires { Standing script.now loaded run }
    ensures { (w : Standing script.now loaded run) → result ≡ each_on w.state.control.stack }
{
    if run.height == 0 {
        return false;
    }
    let at = top(run).at as usize;
    script[at] == 0x73 && script[at + 1] == 1
}

// How the machine stands with no budget left; an each block is not searched.
// Ruled out: a look that says spent where the stack is empty; one that says ended where a graph is wanted.
pub fn look(run: SavedControl, store: SavedStore, view: &View<'_>) -> RunState
    requires lends_store { LendsStoreIn view.now run store }
    ensures { (w : LendsStoreIn view.now run store) → LookOf w.lends result }
{
    if each_on_top(run, view.script, view.context.loaded) {
        return RunState::Spent;
    }
    match step(run, store, view) {
        Ok(_) => RunState::Spent,
        Err(ending) => ending,
    }
}

// Step after step until the machine stands or the budget is spent.
fn take_steps(run: SavedControl, store: SavedStore, view: &View<'_>, budget: u32) -> Stopped
    requires lends_store { LendsStoreIn view.now run store }
    ensures { (w : LendsStoreIn view.now run store) → RunOf w.lends budget result }
{
    let mut control = run;
    for steps in 0..budget {
        match step(control, store, view) {
            Ok(after) => control = after,
            Err(ending) => {
                return Stopped {
                    steps,
                    ending,
                    control,
                };
            }
        }
    }
    let ending = look(control, store, view);
    Stopped {
        steps: budget,
        ending,
        control,
    }
}

// A run, over a table of the script's ends that is made once; its caller has none.
// Ruled out: a run that counts a step it did not take; one that stops before the budget is spent while the machine has a step to take.
pub fn run_steps(
    run: SavedControl,
    store: SavedStore,
    script: &[u8],
    context: Context,
    ranks: &[u8],
    table: &[u8],
    quads: &[u64],
    leasts: &[u8],
    budget: u32,
) -> Stopped
    requires lends_store { LendsStore script.now ranks.now table.now quads.now leasts.now context run store }
    requires script_len_bound { length script.now ≤ script_limit }
    ensures { (w : LendsStore script.now ranks.now table.now quads.now leasts.now context run store) → RunOf w.lends budget result }
{
    let mut ends = [0u16; SCRIPT_LIMIT];
    fill_ends(script, &mut ends);
    let view = View {
        script,
        ends: &ends,
        ranks,
        table,
        quads,
        leasts,
        context,
    };
    take_steps(run, store, &view, budget)
}
