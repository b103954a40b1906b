// Tuples on a saved run: what a run call begins with, then a line for each.
#![tactic(auto)]

ghost use Rattle.std.specs.Prelude.{◌≡◌, ◌*◌, ◌/◌, ◌≤◌, T, length};
ghost use Rattle.definitions.specs.Limits.{saved_width};
ghost use Rattle.definitions.specs.Bytes.{signed};
ghost use Rattle.definitions.specs.Calls.{lengths_fit};
ghost use Rattle.lengths.specs.Lent.{lent_of};
ghost use Rattle.output.specs.Written.{Written};
ghost use Rattle.evaluator_input.specs.Input.{tuple_width, tuples_in};
ghost use Rattle.tuples.specs.Asking.{entered, entered_lines};
ghost use Rattle.tuple_lines.specs.TriedLine.{line_room};

use alphabet::unread_refusal;
use definitions::{QUAD_LIMIT, Refusal, SCRIPT_LIMIT, TERM_LIMIT};
use ends::fill_ends;
use entry::enter;
use layout::reading::read_saved;
use query::{Context, View};
use run_limits::is_date_time;
use store::canonical::canonical_control;
use tuple_lines::put_refused;
use tuples::put_lines;

// What tuples on a saved run come to: a refusal as of a run call, or lines.
// Ruled out: a now that no run call takes; another refusal told where no saved run has the bytes.
pub fn put_entered(
    ranks: &[u8],
    terms: &[u8],
    schema: &[u8],
    script: &[u8],
    table: &[u8],
    store: &[u8],
    saved: &[u8],
    clock: u64,
    tuples: &[u8],
    out: &mut [u8],
) -> usize
    requires t { T (lengths_fit (lent_of ranks.now terms.now schema.now script.now table.now store.now)) }
    requires saved_len { length saved.now ≡ saved_width }
    requires tuple_width_in_bounds { line_room * (length tuples.now / tuple_width) ≤ length out.old }
    requires line_room_in_bounds { line_room ≤ length out.old }
    ensures written { Written (entered_lines ranks.now (signed clock) (tuples_in tuples.now)
        (entered (lent_of ranks.now terms.now schema.now script.now table.now store.now) saved.now (signed clock)))
        out.old out.new 0 result }
    ensures upper_bound { result ≤ length out.old }
{
    let read = read_saved(saved);
    if !read.ok {
        return put_refused(unread_refusal(ranks), out);
    }
    let run = read.saved;
    let mut keys = [0u64; QUAD_LIMIT];
    let mut leasts = [0u8; TERM_LIMIT];
    let entered = enter(
        ranks,
        terms,
        schema,
        script,
        table,
        store,
        run,
        &mut keys,
        &mut leasts,
    );
    let found = match entered {
        Ok(found) => found,
        Err(refusal) => return put_refused(refusal, out),
    };
    if !is_date_time(clock) {
        return put_refused(Refusal::BadRun, out);
    }
    let control = run.control;
    let kept = run.store;
    let clean = canonical_control(control, script);
    let mut ends = [0u16; SCRIPT_LIMIT];
    fill_ends(script, &mut ends);
    let view = View {
        script,
        ends: &ends,
        ranks,
        table,
        quads: &keys,
        leasts: &leasts,
        context: Context {
            loaded: found.loaded,
            count: found.count,
            quads: kept.quads as usize,
            clock,
        },
    };
    put_lines(clean, &view, tuples, out)
}
