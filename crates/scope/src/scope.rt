// The variables free and bound in a script (refusal 7), by walks over what reads well.
ghost use Rattle.std.specs.Prelude.{◌≡◌, true, not, ◌+◌, ◌<◌};
ghost use Rattle.std.specs.List.{list_all};
ghost use Rattle.definitions.specs.Limits.{variable_limit, count_offset, pairs_offset};
ghost use Rattle.definitions.specs.Bytes.{byte};
ghost use Rattle.definitions.specs.Scope.{is_free, binders_of, variables_of, in_scope};
ghost use Rattle.definitions.specs.Reading.{read_script, parsed};
ghost use Rattle.laws.specs.Walks.{Loads, Walked};
ghost use Rattle.laws.specs.ReadAnswers.{is_some, passes};
ghost use Rattle.scope.specs.Uses.{with_uses, free_in};
ghost use Rattle.scope.specs.Bindings.{PairsAt, bind_one, bind_all, unbound};
ghost use Rattle.laws.specs.Pairs.{pair_variables};

use crate::uses::{Uses, name_uses, query_uses};
use definitions::{COUNT_OFFSET, DEPTH_LIMIT, PAIRS_OFFSET, QUERY_OFFSET, VARIABLE_LIMIT};
use walks::{after_name, after_query};

// Flags for the variables bound so far, and whether one was bound by two pairs.
#[derive(Clone, Copy)]
pub struct Bound {
    pub flags: [bool; VARIABLE_LIMIT],
    pub twice: bool,
}

// The offset after what was walked, and what is bound there.
#[derive(Clone, Copy)]
pub struct BoundAfter {
    pub next: usize,
    pub bound: Bound,
}

fn bind_one(bound: Bound, v: usize) -> Bound
    requires { v < variable_limit }
    ensures { result ≡ bind_one v bound }
{
    let mut after = bound;
    after.twice = bound.twice | bound.flags[v];
    after.flags[v] = true;
    after
}

// The pairs of the block at an offset, bound one after the other.
// Ruled out: an unused pair's variable 0 bound; a variable that two pairs bind not told.
pub fn bind_pairs(script: &[u8], at: usize, bound: Bound) -> Bound
    requires { PairsAt script.now at }
    ensures { result ≡ bind_all (pair_variables (byte script.now (at + count_offset)) script.now (at + pairs_offset)) bound }
{
    let count = script[at + COUNT_OFFSET];
    let first = at + PAIRS_OFFSET;
    let mut after = bound;
    for k in 0..count as usize {
        let v = script[first + 2 * k] as usize;
        after = bind_one(after, v);
    }
    after
}

// The hidden variables, and those that the block at an offset hides.
fn hide_pairs(script: &[u8], at: usize, hidden: [bool; VARIABLE_LIMIT]) -> [bool; VARIABLE_LIMIT]
    requires { PairsAt script.now at }
    ensures { result ≡ (bind_all (pair_variables (byte script.now (at + count_offset)) script.now (at + pairs_offset)) (unbound hidden)).flags }
{
    let bound = bind_pairs(
        script,
        at,
        Bound {
            flags: hidden,
            twice: false,
        },
    );
    bound.flags
}

// The free variables of a script beside those flagged already, all but the hidden ones.
// Ruled out: a block's own variable flagged in its query; one hidden by a block still hidden after it.
pub fn script_uses(
    script: &[u8],
    terms: usize,
    at: usize,
    left: u8,
    hidden: [bool; VARIABLE_LIMIT],
    free: [bool; VARIABLE_LIMIT],
) -> Uses
    requires { Loads (read_script script.now terms left at) }
    ensures { Walked (λ c. result.free ≡ with_uses hidden free (λ v. is_free v c)) (read_script script.now terms left at) result.next }
{
    let kind = script[at];
    let first = at + 1;
    let below = left - 1;
    match kind {
        0x71 => Uses { next: first, free },
        0x72 => {
            let n = name_uses(script, terms, first, below, hidden, free);
            let found = n.free;
            script_uses(script, terms, n.next, below, hidden, found)
        }
        0x73 => {
            let inside = hide_pairs(script, at, hidden);
            let q = query_uses(script, terms, at + QUERY_OFFSET, below, inside, free);
            let found = q.free;
            script_uses(script, terms, q.next, below, inside, found)
        }
        _ => {
            let a = script_uses(script, terms, first, below, hidden, free);
            let found = a.free;
            script_uses(script, terms, a.next, below, hidden, found)
        }
    }
}

// The free variables of the script at an offset, as flags.
// Ruled out: the variables that stand in it, bound there or not; those of the whole script.
pub fn free_in(script: &[u8], terms: usize, at: usize, left: u8) -> [bool; VARIABLE_LIMIT]
    requires { Loads (read_script script.now terms left at) }
    ensures { result ≡ free_in (read_script script.now terms left at) }
{
    let none = [false; VARIABLE_LIMIT];
    let found = script_uses(script, terms, at, left, none, none);
    found.free
}

// The pairs of a script, bound one after the other.
// Ruled out: a block within a block passed over; the variables of a sequence's first script forgotten.
pub fn bind_script(script: &[u8], terms: usize, at: usize, left: u8, bound: Bound) -> BoundAfter
    requires { Loads (read_script script.now terms left at) }
    ensures { Walked (λ c. result.bound ≡ bind_all (variables_of (binders_of c)) bound) (read_script script.now terms left at) result.next }
{
    let kind = script[at];
    let first = at + 1;
    let below = left - 1;
    match kind {
        0x71 => BoundAfter { next: first, bound },
        0x72 => {
            let next = after_name(script, terms, first, below);
            bind_script(script, terms, next, below, bound)
        }
        0x73 => {
            let pairs = bind_pairs(script, at, bound);
            let next = after_query(script, terms, at + QUERY_OFFSET, below);
            bind_script(script, terms, next, below, pairs)
        }
        _ => {
            let a = bind_script(script, terms, first, below, bound);
            let pairs = a.bound;
            bind_script(script, terms, a.next, below, pairs)
        }
    }
}

// Whether no flag is set.
fn none_set(flags: [bool; VARIABLE_LIMIT]) -> bool
    ensures { result ≡ list_all not flags }
{
    flags.iter().all(|&flag| !flag)
}

// Whether no variable is unbound at its use, nor bound by two pairs.
// Ruled out: a use before its block let pass; two blocks in sequence that bind one variable let pass.
pub fn in_scope(script: &[u8], terms: usize) -> bool
    requires { is_some (parsed terms script.now) ≡ true }
    ensures { result ≡ passes in_scope (parsed terms script.now) }
{
    let none = [false; VARIABLE_LIMIT];
    let found = script_uses(script, terms, 0, DEPTH_LIMIT, none, none);
    let free = found.free;
    let walked = bind_script(
        script,
        terms,
        0,
        DEPTH_LIMIT,
        Bound {
            flags: none,
            twice: false,
        },
    );
    let bound = walked.bound;
    none_set(free) & !bound.twice
}
