// Tuples tried on the block on top, a line for each.
#![tactic(auto)]

ghost use Rattle.std.specs.Prelude.{◌≡◌, ◌+◌, ◌*◌, ◌/◌, ◌≤◌, length};
ghost use Rattle.definitions.specs.Bytes.{byte};
ghost use Rattle.acts.specs.Steps.{Top};
ghost use Rattle.answers.specs.Lends.{LendsIn};
ghost use Rattle.output.specs.Written.{Written};
ghost use Rattle.evaluator_input.specs.Input.{tuple_width};
ghost use Rattle.tuple_lines.specs.TriedLine.{line_room};
ghost use Rattle.tuples.specs.Lines.{TuplesWritten, lines_here};

use answers::try_top;
use definitions::SavedControl;
use evaluator_input::{TUPLE_WIDTH, tuple_at};
use output::put_text;
use query::View;
use store::stack::top;
use tuple_lines::put_tried;

// A line for each tuple, with the block on top.
fn put_tuples(run: SavedControl, view: &View<'_>, at: usize, tuples: &[u8], out: &mut [u8]) -> usize
    requires top { (w : LendsIn view.now run) × Top w.here at }
    requires at_value { byte view.now.script.now at ≡ 0x73 }
    requires tuple_width_in_bounds { line_room * (length tuples.now / tuple_width) ≤ length out.old }
    ensures tuples_written { (w : LendsIn view.now run) (t : Top w.here at)
        → TuplesWritten w t (length tuples.now / tuple_width) tuples.now out.old out.new result }
    ensures upper_bound { result ≤ length out.old }
{
    let count = tuples.len() / TUPLE_WIDTH;
    let mut end = 0;
    for k in 0..count {
        let tuple = tuple_at(tuples, TUPLE_WIDTH * k);
        let tried = try_top(run, view, at, tuple);
        end = put_tried(tried, out, end);
    }
    end
}

// The lines of a state that was entered: no block, or one for each tuple.
// Ruled out: the first tuple left out; a tuple that fits told to be bad.
pub fn put_lines(run: SavedControl, view: &View<'_>, tuples: &[u8], out: &mut [u8]) -> usize
    requires lends { LendsIn view.now run }
    requires tuple_width_in_bounds { line_room * (length tuples.now / tuple_width) ≤ length out.old }
    requires line_room_in_bounds { line_room ≤ length out.old }
    ensures written { (w : LendsIn view.now run)
        → Written (lines_here w tuples.now) out.old out.new 0 result }
    ensures upper_bound { result ≤ length out.old }
{
    if run.height == 0 {
        return put_text(b"no block\n", out, 0);
    }
    let at = top(run).at as usize;
    if view.script[at] != 0x73 {
        return put_text(b"no block\n", out, 0);
    }
    put_tuples(run, view, at, tuples, out)
}
