// The evaluator's lines, each after the other.
#![tactic(auto)]

ghost use Rattle.definitions.specs.Numbers.{refusal_number};
ghost use Rattle.std.specs.Prelude.{◌++◌, ◌+◌, ◌≤◌, length};
ghost use Rattle.definitions.specs.Ascii.{ascii};
ghost use Rattle.definitions.specs.Values.{natural_text};
ghost use Rattle.definitions.specs.Printer.{line};
ghost use Rattle.output.specs.Written.{Written};
ghost use Rattle.tuple_lines.specs.TriedLine.{line_room, truth_text, tried_line};

use definitions::Refusal;
use output::{NUMBER_ROOM, put_byte, put_number, put_text};
use search::Tried;

// The most bytes that a line takes.
pub const LINE_ROOM: usize = 8 + NUMBER_ROOM + 1;

fn put_truth(holds: bool, out: &mut [u8], at: usize) -> usize
    requires { at + 6 ≤ length out.old }
    ensures written { Written (truth_text holds) out.old out.new at result }
    ensures upper_bound { result ≤ at + 6 }
{
    if holds {
        return put_text(b"true ", out, at);
    }
    put_text(b"false ", out, at)
}

// What trying a tuple gave. Ruled out: a truth told of a tuple that does not fit; a count of one less.
pub fn put_tried(tried: Option<Tried>, out: &mut [u8], at: usize) -> usize
    requires { at + line_room ≤ length out.old }
    ensures written { Written (tried_line tried) out.old out.new at result }
    ensures upper_bound { result ≤ at + line_room }
{
    let Some(found) = tried else {
        return put_text(b"bad\n", out, at);
    };
    let a = put_truth(found.holds, out, at);
    let b = put_number(found.records as u64, out, a);
    put_byte(b'\n', out, b)
}

// A refusal by its number. Ruled out: a number of another refusal; a line without its end.
pub fn put_refused(refusal: Refusal, out: &mut [u8]) -> usize
    requires { line_room ≤ length out.old }
    ensures written { Written (line (ascii "refused " ++ natural_text (refusal_number refusal))) out.old out.new 0 result }
    ensures upper_bound { result ≤ line_room }
{
    let a = put_text(b"refused ", out, 0);
    let b = put_number(refusal.number() as u64, out, a);
    put_byte(b'\n', out, b)
}
