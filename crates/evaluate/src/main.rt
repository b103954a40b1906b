// The evaluator of tuples: what a run call is lent, and tuples for the block on top, from standard input; a line for each to standard output.
#![tactic(auto)]

mod evaluation;

use std::io::{self, Write};
use whole_input::read_whole;

fn main(rt: HostRuntime) -> io::Result<()> {
    let mut input = [0u8; evaluation::INPUT_WIDTH];
    let n = read_whole(&mut rt.stdin(), &mut input)?;
    let mut out = [0u8; evaluation::OUTPUT_ROOM];
    let end = evaluation::evaluate(&input[..n], &mut out);
    rt.stdout().write_all(&out[..end])
}
