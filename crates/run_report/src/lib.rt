// The report of a run: steps taken, state, the wanted graph.
#![tactic(auto)]

ghost use Rattle.std.specs.Prelude.{◌≡◌, length};
ghost use Rattle.definitions.specs.Numbers.{state_number, wanted_graph};
ghost use Rattle.definitions.specs.Limits.{run_report_width};
ghost use Rattle.definitions.specs.Exports.{run_report};

use definitions::{RunAnswer, RunState};
use layout::writing;

fn state_number(state: RunState) -> u8
    ensures { result ≡ state_number state }
{
    match state {
        RunState::Ended => 0,
        RunState::Wanted(_) => 1,
        RunState::Waiting => 2,
        RunState::Spent => 3,
    }
}

// The wanted graph's term number, or zero.
fn wanted_graph(state: RunState) -> u16
    ensures { result ≡ wanted_graph state }
{
    match state {
        RunState::Wanted(graph) => graph,
        _ => 0,
    }
}

// Steps taken, state, zero, the wanted graph; a refused call leaves the report as it was.
pub fn write_run_report(answer: RunAnswer, out: &mut [u8])
    requires { length out.old ≡ run_report_width }
    ensures { out.new ≡ run_report out.old answer }
{
    let Ok(end) = answer else {
        return;
    };
    writing::write_number(end.steps as u64, &mut out[0..4]);
    out[4] = state_number(end.state);
    out[5] = 0;
    writing::write_word(wanted_graph(end.state), &mut out[6..8]);
}
