// The variables that stand in a name, an expression, a boolean or a query: walks over what reads well, which flag them
// beside those flagged already, all but the hidden ones.
ghost use Rattle.std.specs.Prelude.{◌≡◌};
ghost use Rattle.definitions.specs.Reading.{read_name, read_expr, read_cond, read_query};
ghost use Rattle.definitions.specs.Scope.{in_name, in_expr, in_cond, in_query};
ghost use Rattle.laws.specs.Walks.{Loads, Walked};
ghost use Rattle.scope.specs.Uses.{with_uses};

use definitions::{LANG_MATCHES_TEXT_OFFSET, REGEX_TEXT_OFFSET, VARIABLE_LIMIT};

// The offset after what was walked, and the flags.
#[derive(Clone, Copy)]
pub struct Uses {
    pub next: usize,
    pub free: [bool; VARIABLE_LIMIT],
}

// Ruled out: a hidden variable flagged; a constant's number flagged as a variable.
pub fn name_uses(
    script: &[u8],
    terms: usize,
    at: usize,
    left: u8,
    hidden: [bool; VARIABLE_LIMIT],
    free: [bool; VARIABLE_LIMIT],
) -> Uses
    requires { Loads (read_name script.now terms left at) }
    ensures { Walked (λ n. result.free ≡ with_uses hidden free (λ v. in_name v n)) (read_name script.now terms left at) result.next }
{
    let kind = script[at];
    match kind {
        0x31 => {
            let v = script[at + 1] as usize;
            let mut after = free;
            after[v] = free[v] | !hidden[v];
            let next = at + 2;
            Uses { next, free: after }
        }
        _ => {
            let next = at + 3;
            Uses { next, free }
        }
    }
}

// Ruled out: the second part of a sum passed over; flags set before lost.
pub fn expr_uses(
    script: &[u8],
    terms: usize,
    at: usize,
    left: u8,
    hidden: [bool; VARIABLE_LIMIT],
    free: [bool; VARIABLE_LIMIT],
) -> Uses
    requires { Loads (read_expr script.now terms left at) }
    ensures { Walked (λ e. result.free ≡ with_uses hidden free (λ v. in_expr v e)) (read_expr script.now terms left at) result.next }
{
    let kind = script[at];
    let first = at + 1;
    let below = left - 1;
    match kind {
        0x31 => name_uses(script, terms, at, left, hidden, free),
        0x32 => name_uses(script, terms, at, left, hidden, free),
        0x41 => Uses { next: first, free },
        0x42 => expr_uses(script, terms, first, below, hidden, free),
        0x43 => expr_uses(script, terms, first, below, hidden, free),
        0x44 => {
            let a = expr_uses(script, terms, first, below, hidden, free);
            let found = a.free;
            expr_uses(script, terms, a.next, below, hidden, found)
        }
        _ => {
            let a = expr_uses(script, terms, first, below, hidden, free);
            let found = a.free;
            expr_uses(script, terms, a.next, below, hidden, found)
        }
    }
}

// Ruled out: the expression of a regex passed over; its pattern's bytes taken for variables.
pub fn cond_uses(
    script: &[u8],
    terms: usize,
    at: usize,
    left: u8,
    hidden: [bool; VARIABLE_LIMIT],
    free: [bool; VARIABLE_LIMIT],
) -> Uses
    requires { Loads (read_cond script.now terms left at) }
    ensures { Walked (λ b. result.free ≡ with_uses hidden free (λ v. in_cond v b)) (read_cond script.now terms left at) result.next }
{
    let kind = script[at];
    let first = at + 1;
    let below = left - 1;
    match kind {
        0x50 => Uses { next: first, free },
        0x51 => Uses { next: first, free },
        0x52 => {
            let a = cond_uses(script, terms, first, below, hidden, free);
            let found = a.free;
            cond_uses(script, terms, a.next, below, hidden, found)
        }
        0x53 => {
            let a = cond_uses(script, terms, first, below, hidden, free);
            let found = a.free;
            cond_uses(script, terms, a.next, below, hidden, found)
        }
        0x54 => cond_uses(script, terms, first, below, hidden, free),
        0x55 => expr_uses(script, terms, at + REGEX_TEXT_OFFSET, below, hidden, free),
        0x56 => expr_uses(
            script,
            terms,
            at + LANG_MATCHES_TEXT_OFFSET,
            below,
            hidden,
            free,
        ),
        0x57 => {
            let a = expr_uses(script, terms, first, below, hidden, free);
            let found = a.free;
            expr_uses(script, terms, a.next, below, hidden, found)
        }
        _ => {
            let a = expr_uses(script, terms, first, below, hidden, free);
            let found = a.free;
            expr_uses(script, terms, a.next, below, hidden, found)
        }
    }
}

// Ruled out: the object of a pattern passed over; a filter's boolean passed over.
pub fn query_uses(
    script: &[u8],
    terms: usize,
    at: usize,
    left: u8,
    hidden: [bool; VARIABLE_LIMIT],
    free: [bool; VARIABLE_LIMIT],
) -> Uses
    requires { Loads (read_query script.now terms left at) }
    ensures { Walked (λ q. result.free ≡ with_uses hidden free (λ v. in_query v q)) (read_query script.now terms left at) result.next }
{
    let kind = script[at];
    let first = at + 1;
    let below = left - 1;
    match kind {
        0x61 => {
            let g = name_uses(script, terms, first, below, hidden, free);
            let found_g = g.free;
            let s = name_uses(script, terms, g.next, below, hidden, found_g);
            let found_s = s.free;
            let p = name_uses(script, terms, s.next, below, hidden, found_s);
            let found = p.free;
            name_uses(script, terms, p.next, below, hidden, found)
        }
        0x62 => {
            let a = query_uses(script, terms, first, below, hidden, free);
            let found = a.free;
            query_uses(script, terms, a.next, below, hidden, found)
        }
        0x63 => {
            let a = query_uses(script, terms, first, below, hidden, free);
            let found = a.free;
            query_uses(script, terms, a.next, below, hidden, found)
        }
        0x64 => cond_uses(script, terms, first, below, hidden, free),
        _ => Uses { next: first, free },
    }
}
