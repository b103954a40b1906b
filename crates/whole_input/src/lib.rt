// What a reader gives, into bytes that are there for it.
#![tactic(auto)]

ghost use Rattle.std.specs.Prelude.{◌≤◌, IfOk, length};

use std::io::{self, Read};

// As many bytes as a reader gives, or as there is room for: how many they are.
// Ruled out: a number past the room.
pub fn read_whole<R: Read>(from: &mut R, into: &mut [u8]) -> io::Result<usize>
    ensures bound { IfOk result (λ n. n ≤ length into.new) }
{
    let mut at = 0;
    while at < into.len() {
        let n = from.read(&mut into[at..])?;
        if n == 0 {
            break;
        }
        at += n;
    }
    Ok(at)
}
