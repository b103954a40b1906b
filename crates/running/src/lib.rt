// The run call: refusals 1, 21, 10 and 11 in this order, then the machine's steps.
#![tactic(auto)]

ghost use Rattle.std.specs.Prelude.{◌≡◌};
ghost use Rattle.definitions.specs.Outcome.{ok};
ghost use Rattle.definitions.specs.Calls.{run_call};
ghost use Rattle.lengths.specs.Lent.{lent_of};
ghost use Rattle.running.specs.Refused.{handed_back};

use definitions::{QUAD_LIMIT, Ran, Refusal, RunEnd, SavedRun, TERM_LIMIT};
use entry::enter;
use machine::run::run_steps;
use query::Context;
use run_limits::{bits, in_limits};
use store::canonical::{canonical_control, canonical_store};

// The run of what is not refused.
fn take_steps(
    ranks: &[u8],
    terms: &[u8],
    schema: &[u8],
    script: &[u8],
    table: &[u8],
    store: &[u8],
    saved: SavedRun,
    budget: u64,
    clock: i64,
) -> Result<Ran, Refusal>
    ensures { run_call (lent_of ranks.now terms.now schema.now script.now table.now store.now) saved budget clock ≡ ok (handed_back saved result) }
{
    let mut keys = [0u64; QUAD_LIMIT];
    let mut leasts = [0u8; TERM_LIMIT];
    let entered = enter(
        ranks,
        terms,
        schema,
        script,
        table,
        store,
        saved,
        &mut keys,
        &mut leasts,
    )?;
    let second = bits(clock);
    if !in_limits(budget, second) {
        return Err(Refusal::BadRun);
    }
    let control = saved.control;
    let clean = canonical_control(control, script);
    let saved_store = saved.store;
    let kept = canonical_store(saved_store);
    let context = Context {
        loaded: entered.loaded,
        count: entered.count,
        quads: saved_store.quads as usize,
        clock: second,
    };
    let end = run_steps(
        clean,
        kept,
        script,
        context,
        ranks,
        table,
        &keys,
        &leasts,
        budget as u32,
    );
    let ending = end.ending;
    let after = end.control;
    Ok(Ran {
        answer: Ok(RunEnd {
            steps: end.steps,
            state: ending,
        }),
        saved: SavedRun {
            control: after,
            store: kept,
        },
    })
}

// The run call. Ruled out: waiting or spent said without a step; a total of steps that were not taken.
pub fn run(
    ranks: &[u8],
    terms: &[u8],
    schema: &[u8],
    script: &[u8],
    table: &[u8],
    store: &[u8],
    saved: SavedRun,
    budget: u64,
    clock: i64,
) -> Ran
    ensures { run_call (lent_of ranks.now terms.now schema.now script.now table.now store.now) saved budget clock ≡ ok result }
{
    match take_steps(
        ranks, terms, schema, script, table, store, saved, budget, clock,
    ) {
        Ok(ran) => ran,
        Err(refusal) => Ran {
            answer: Err(refusal),
            saved,
        },
    }
}
