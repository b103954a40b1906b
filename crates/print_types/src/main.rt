// Document 01's type printer: terms, schema and script joined from standard input, their types to standard output.
#![tactic(auto)]

mod printing;

use std::io::{self, Write};
use whole_input::read_whole;

fn main(rt: HostRuntime) -> io::Result<()> {
    let mut input = [0u8; printing::INPUT_WIDTH];
    let n = read_whole(&mut rt.stdin(), &mut input)?;
    let mut out = [0u8; type_lines::OUTPUT_ROOM];
    let end = printing::print(&input[..n], &mut out);
    rt.stdout().write_all(&out[..end])
}
