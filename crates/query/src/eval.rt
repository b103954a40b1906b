// The evaluator of one tuple: values of expressions, truth of booleans and queries, by recursion over the script's bytes.
ghost use Rattle.std.specs.Prelude.{T, List, ◌+◌, ◌≤◌, ◌≡◌};
ghost use Rattle.definitions.specs.Bytes.{byte, signed};
ghost use Rattle.definitions.specs.Terms.{Term, is_date_time};
ghost use Rattle.definitions.specs.Outcome.{ok};
ghost use Rattle.definitions.specs.Values.{Value as Meant};
ghost use Rattle.values.specs.Meaning.{Gives};
ghost use Rattle.definitions.specs.Reading.{read_expr, read_cond, read_query};
ghost use Rattle.laws.specs.Walks.{Loads};
ghost use Rattle.laws.specs.Walks.{Walked};
ghost use Rattle.query.specs.StoreLent.{Told, Tabled, Stored, rows_of};
ghost use Rattle.query.specs.Eval.{Lent, RanksLent, NumberGives, ExprOf, TestOf, TruthOf, HoldsOf};

use crate::names::{name_at, names_at};
use crate::{Context, Held, Judged, Tested, Valued, View};
use definitions::{LANG_MATCHES_TEXT_OFFSET, REGEX_TEXT_OFFSET, SLOT_WIDTH, Truth, VARIABLE_LIMIT};
use ends::after;
use fields::numbers;
use scan::{SOUGHT, least};
use truth::{and_of, comes_to, is_true, not_of, or_of};
use values::Value;

// The value of now.
fn clock_value(clock: u64) -> Value
    requires { T (is_date_time (signed clock)) }
    ensures { Gives result (ok (Meant.date_time (signed clock))) }
{
    let seconds = numbers::to_signed(clock);
    values::now_value(seconds)
}

// The value of a term, by its code; a code that is no term's gives the value of now.
fn term_value(table: &[u8], context: Context, code: usize) -> Value
    requires tabled { (terms : List Term) × Tabled table.now context terms }
    requires told { Told context }
    ensures { NumberGives table.now result code }
{
    if context.count <= code {
        return clock_value(context.clock);
    }
    let from = code * SLOT_WIDTH;
    term_values::value_at(table, from)
}

// The value of the expression at an offset; none where not all its variables are known.
// Ruled out: the second summand left out; a free variable taken for a known one.
pub fn eval_expr(
    script: &[u8],
    context: Context,
    at: usize,
    left: u8,
    table: &[u8],
    known: &[usize],
) -> Valued
    requires loads { Loads (read_expr script.now context.loaded left at) }
    requires lent { Lent table.now known.now context }
    ensures { Walked (ExprOf table.now known.now context result.value) (read_expr script.now context.loaded left at) result.next }
{
    let kind = script[at];
    let first = at + 1;
    let below = left - 1;
    if kind < 0x41 {
        let n = name_at(script, context.loaded, at, left, known, VARIABLE_LIMIT);
        let next = n.next;
        if SOUGHT <= n.code {
            return Valued { next, value: None };
        }
        let value = term_value(table, context, n.code);
        return Valued {
            next,
            value: Some(value),
        };
    }
    if kind == 0x41 {
        let value = clock_value(context.clock);
        return Valued {
            next: first,
            value: Some(value),
        };
    }
    let a = eval_expr(script, context, first, below, table, known);
    if kind < 0x44 {
        let Some(x) = a.value else {
            return a;
        };
        let value = if kind == 0x42 {
            strings::text::text_of(x)
        } else {
            values::arithmetic::abs(x)
        };
        return Valued {
            next: a.next,
            value: Some(value),
        };
    }
    let b = eval_expr(script, context, a.next, below, table, known);
    let next = b.next;
    let (Some(x), Some(y)) = (a.value, b.value) else {
        return Valued { next, value: None };
    };
    let value = if kind == 0x44 {
        values::arithmetic::plus(x, y)
    } else {
        values::arithmetic::minus(x, y)
    };
    Valued {
        next,
        value: Some(value),
    }
}

// The truth of the test at an offset, a boolean of values; none where not all its variables are known.
pub(crate) fn eval_test(view: &View<'_>, at: usize, left: u8, known: &[usize]) -> Tested
    requires loads { Loads (read_cond view.now.script.now view.now.context.loaded left at) }
    requires is_test { 0x55 ≤ byte view.now.script.now at }
    requires ranks_lent { RanksLent view.now.ranks.now view.now.table.now known.now view.now.context }
    ensures { Walked (TestOf view.now.ranks.now view.now.table.now known.now view.now.context result.truth)
        (read_cond view.now.script.now view.now.context.loaded left at) result.next }
{
    let script = view.script;
    let kind = script[at];
    let first = at + 1;
    let below = left - 1;
    match kind {
        0x55 => {
            let text = at + REGEX_TEXT_OFFSET;
            let a = eval_expr(script, view.context, text, below, view.table, known);
            let next = a.next;
            let Some(x) = a.value else {
                return Tested { next, truth: None };
            };
            let truth = strings::tests::regex(x, script, first);
            Tested {
                next,
                truth: Some(truth),
            }
        }
        0x56 => {
            let text = at + LANG_MATCHES_TEXT_OFFSET;
            let a = eval_expr(script, view.context, text, below, view.table, known);
            let next = a.next;
            let Some(x) = a.value else {
                return Tested { next, truth: None };
            };
            let truth = strings::tests::lang_matches(x, script, first);
            Tested {
                next,
                truth: Some(truth),
            }
        }
        _ => {
            let a = eval_expr(script, view.context, first, below, view.table, known);
            let Some(x) = a.value else {
                let next = after(view.ends, script.len(), at);
                return Tested { next, truth: None };
            };
            let b = eval_expr(script, view.context, a.next, below, view.table, known);
            let next = b.next;
            let Some(y) = b.value else {
                return Tested { next, truth: None };
            };
            let truth = if kind == 0x57 {
                comparison::equal(x, y)
            } else {
                comparison::less(view.ranks, x, y)
            };
            Tested {
                next,
                truth: Some(truth),
            }
        }
    }
}

// The truth of the boolean at an offset. Ruled out: and by its first part alone; a count one short where the second part is left out.
pub fn eval_cond(view: &View<'_>, at: usize, left: u8, known: &[usize]) -> Judged
    requires loads { Loads (read_cond view.now.script.now view.now.context.loaded left at) }
    requires ranks_lent { RanksLent view.now.ranks.now view.now.table.now known.now view.now.context }
    ensures walked { Walked (TruthOf view.now.ranks.now view.now.table.now known.now view.now.context result.truth result.records)
        (read_cond view.now.script.now view.now.context.loaded left at) result.next }
    ensures records_bound { at + result.records ≤ result.next }
{
    let script = view.script;
    let kind = script[at];
    let first = at + 1;
    let below = left - 1;
    match kind {
        0x50 => Judged {
            next: first,
            truth: Truth::False,
            records: 1,
        },
        0x51 => Judged {
            next: first,
            truth: Truth::True,
            records: 1,
        },
        0x52 | 0x53 => {
            let either = kind == 0x52;
            let a = eval_cond(view, first, below, known);
            let counted = a.records + 1;
            if comes_to(a.truth, either) {
                let next = after(view.ends, script.len(), at);
                return Judged {
                    next,
                    truth: a.truth,
                    records: counted, // the second part is left out
                };
            }
            let b = eval_cond(view, a.next, below, known);
            let truth = if either {
                or_of(a.truth, b.truth)
            } else {
                and_of(a.truth, b.truth)
            };
            let records = counted + b.records;
            Judged {
                next: b.next,
                truth,
                records,
            }
        }
        0x54 => {
            let a = eval_cond(view, first, below, known);
            let truth = not_of(a.truth);
            let records = a.records + 1;
            Judged {
                next: a.next,
                truth,
                records,
            }
        }
        _ => {
            let test = eval_test(view, at, left, known);
            let truth = test.truth.unwrap_or(Truth::Unknown); // the machine meets a fault there
            Judged {
                next: test.next,
                truth,
                records: 1,
            }
        }
    }
}

// Whether the query at an offset holds, where all its variables are known. Ruled out: the last quad left out; a union of its first part only.
pub fn eval_query(view: &View<'_>, at: usize, left: u8, known: &[usize]) -> Held
    requires loads { Loads (read_query view.now.script.now view.now.context.loaded left at) }
    requires ranks_lent { RanksLent view.now.ranks.now view.now.table.now known.now view.now.context }
    requires stored { Stored view.now.quads.now view.now.context }
    ensures walked { Walked (HoldsOf view.now.ranks.now view.now.table.now known.now view.now.context (rows_of view.now.quads.now view.now.context)
        result.holds result.records)
        (read_query view.now.script.now view.now.context.loaded left at) result.next }
    ensures records_bound { at + result.records ≤ result.next }
{
    let script = view.script;
    let kind = script[at];
    let first = at + 1;
    let below = left - 1;
    match kind {
        0x61 => {
            let names = names_at(
                script,
                view.context.loaded,
                first,
                below,
                known,
                VARIABLE_LIMIT,
            );
            let found = least(view.quads, view.context.quads, names.codes, 0, 1);
            Held {
                next: names.next,
                holds: found == 0,
                records: 1,
            }
        }
        0x62 | 0x63 => {
            let a = eval_query(view, first, below, known);
            let counted = a.records + 1;
            if a.holds == (kind == 0x63) {
                let next = after(view.ends, script.len(), at);
                return Held {
                    next,
                    holds: a.holds,
                    records: counted,
                };
            }
            let b = eval_query(view, a.next, below, known);
            let records = counted + b.records;
            Held {
                next: b.next,
                holds: b.holds,
                records,
            }
        }
        0x64 => {
            let a = eval_cond(view, first, below, known);
            let holds = is_true(a.truth);
            let records = a.records + 1;
            Held {
                next: a.next,
                holds,
                records,
            }
        }
        _ => Held {
            next: first,
            holds: true,
            records: 1,
        },
    }
}
