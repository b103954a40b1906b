// The written types of a script's variables, by a walk over the pairs of its blocks: a byte for each variable, 0 open,
// 255 for a variable that no pair binds, else the code of its type.
ghost use Rattle.std.specs.Prelude.{◌≡◌, true, ◌+◌, ◌<◌};
ghost use Rattle.std.proofs.Math.Option.{some};
ghost use Rattle.definitions.specs.Limits.{count_offset, pairs_offset};
ghost use Rattle.definitions.specs.Bytes.{byte};
ghost use Rattle.definitions.specs.Tree.{Script};
ghost use Rattle.definitions.specs.Scope.{binders_of};
ghost use Rattle.definitions.specs.Reading.{read_script, parsed};
ghost use Rattle.definitions.specs.Typing.{written_types};
ghost use Rattle.laws.specs.Walks.{Loads, Walked};
ghost use Rattle.laws.specs.ReadAnswers.{is_some};
ghost use Rattle.scope.specs.Bindings.{PairsAt};
ghost use Rattle.facts.specs.Codes.{all_written};
ghost use Rattle.typing.specs.Pairs.{earlier, pairs_noted, binders_noted};

use crate::CodesRead;
use definitions::{COUNT_OFFSET, DEPTH_LIMIT, PAIRS_OFFSET, QUERY_OFFSET, VARIABLE_LIMIT};
use facts::UNBOUND;
use walks::{after_name, after_query};

// The byte of a variable after a pair: what an earlier pair said stands.
fn earlier(here: u8, said: u8) -> u8
    ensures { result ≡ earlier here said }
{
    if here == UNBOUND {
        return said;
    }
    here
}

// The pairs of the block at an offset.
fn note_pairs(script: &[u8], at: usize, codes: [u8; VARIABLE_LIMIT]) -> [u8; VARIABLE_LIMIT]
    requires { PairsAt script.now at }
    ensures { result ≡ pairs_noted (byte script.now (at + count_offset)) script.now (at + pairs_offset) codes }
{
    let count = script[at + COUNT_OFFSET];
    let first = at + PAIRS_OFFSET;
    let mut after = codes;
    for k in 0..count as usize {
        let place = first + 2 * k;
        let v = script[place] as usize;
        let code = script[place + 1];
        after[v] = earlier(after[v], code);
    }
    after
}

// The pairs of a script.
fn note_script(
    script: &[u8],
    terms: usize,
    at: usize,
    left: u8,
    codes: [u8; VARIABLE_LIMIT],
) -> CodesRead
    requires { Loads (read_script script.now terms left at) }
    ensures { Walked (λ c. result.codes ≡ binders_noted (binders_of c) codes) (read_script script.now terms left at) result.next }
{
    let kind = script[at];
    let first = at + 1;
    let below = left - 1;
    match kind {
        0x71 => CodesRead { next: first, codes },
        0x72 => {
            let next = after_name(script, terms, first, below);
            note_script(script, terms, next, below, codes)
        }
        0x73 => {
            let pairs = note_pairs(script, at, codes);
            let next = after_query(script, terms, at + QUERY_OFFSET, below);
            note_script(script, terms, next, below, pairs)
        }
        _ => {
            let a = note_script(script, terms, first, below, codes);
            let pairs = a.codes;
            note_script(script, terms, a.next, below, pairs)
        }
    }
}

// The written types of a script that reads well.
// Ruled out: every variable open; the types of the first block alone.
pub fn written_types(script: &[u8], terms: usize) -> [u8; VARIABLE_LIMIT]
    requires { is_some (parsed terms script.now) ≡ true }
    ensures { (root : Script) → parsed terms script.now ≡ some root → all_written result ≡ written_types root }
{
    let none = [UNBOUND; VARIABLE_LIMIT];
    let walked = note_script(script, terms, 0, DEPTH_LIMIT, none);
    walked.codes
}
