// The roster: cases of document 01's values, a line of output for each. docs/ROSTER.md says where the expected lines come from.
#![tactic(auto)]

mod arithmetic;
mod comparisons;
mod dates;
mod long;
mod order;
mod patterns;
mod print;
mod printed;
mod ranges;
mod truths;

use std::io;

fn main(rt: HostRuntime) -> io::Result<()> {
    let mut out = rt.stdout();
    dates::cases(&mut out)?;
    arithmetic::cases(&mut out)?;
    comparisons::cases(&mut out)?;
    patterns::cases(&mut out)?;
    ranges::cases(&mut out)?;
    truths::cases(&mut out)?;
    long::cases(&mut out)?;
    printed::cases(&mut out)
}
