// What a boolean may come to while some of its variables are still to choose.
ghost use Rattle.std.specs.Prelude.{◌≡◌, true, length};
ghost use Rattle.definitions.specs.Limits.{variable_limit};
ghost use Rattle.definitions.specs.Reading.{read_expr, read_cond};
ghost use Rattle.laws.specs.Walks.{Loads, Walked};
ghost use Rattle.query.specs.Eval.{Lent, RanksLent, MayOf, Waits, PairLoads, PairOpen};

use crate::eval::eval_test;
use crate::names::name_at;
use crate::{Test, View};
use definitions::VARIABLE_LIMIT;
use ends::after;
use scan::SOUGHT;
use truth::comes_to;

// Whether the expression at an offset is a variable that is not known.
fn is_open(script: &[u8], loaded: usize, at: usize, left: u8, known: &[usize]) -> bool
    requires loads { Loads (read_expr script.now loaded left at) }
    requires known_len { length known.now ≡ variable_limit }
    ensures { result ≡ true → Waits known.now (read_expr script.now loaded left at) }
{
    if 0x41 <= script[at] {
        return false;
    }
    let name = name_at(script, loaded, at, left, known, VARIABLE_LIMIT);
    SOUGHT <= name.code
}

// Whether one of two expressions, read one after the other, is a variable that is not known. So no value is worked out for a test that has to wait.
fn pair_open(view: &View<'_>, at: usize, left: u8, known: &[usize]) -> bool
    requires pair_loads { PairLoads (read_expr view.now.script.now view.now.context.loaded left) at }
    requires known_len { length known.now ≡ variable_limit }
    ensures { result ≡ true → PairOpen known.now (read_expr view.now.script.now view.now.context.loaded left) at }
{
    let script = view.script;
    let loaded = view.context.loaded;
    if is_open(script, loaded, at, left, known) {
        return true;
    }
    let second = after(view.ends, script.len(), at);
    is_open(script, loaded, second, left, known)
}

// Whether the boolean at an offset may come to what is wanted, true or false, for some choice of the variables that are not known.
// Ruled out: a boolean refused of which a variable is still to choose; and refused where only one of its parts is.
pub fn may_cond(view: &View<'_>, at: usize, left: u8, known: &[usize], want: bool) -> Test
    requires loads { Loads (read_cond view.now.script.now view.now.context.loaded left at) }
    requires ranks_lent { RanksLent view.now.ranks.now view.now.table.now known.now view.now.context }
    ensures { Walked (MayOf view.now.ranks.now view.now.table.now known.now view.now.context want result.holds)
        (read_cond view.now.script.now view.now.context.loaded left at) result.next }
{
    let script = view.script;
    let kind = script[at];
    let first = at + 1;
    let below = left - 1;
    match kind {
        0x50 => Test {
            next: first,
            holds: !want,
        },
        0x51 => Test {
            next: first,
            holds: want,
        },
        0x52 | 0x53 => {
            let a = may_cond(view, first, below, known, want);
            let decides = want == (kind == 0x52);
            if a.holds == decides {
                let next = after(view.ends, script.len(), at);
                return Test {
                    next,
                    holds: a.holds,
                };
            }
            may_cond(view, a.next, below, known, want)
        }
        0x54 => may_cond(view, first, below, known, !want),
        _ => {
            if (0x57 <= kind) && pair_open(view, first, below, known) {
                let next = after(view.ends, script.len(), at);
                return Test { next, holds: true };
            }
            let test = eval_test(view, at, left, known);
            let next = test.next;
            let Some(truth) = test.truth else {
                return Test { next, holds: true };
            };
            let holds = comes_to(truth, want);
            Test { next, holds }
        }
    }
}
