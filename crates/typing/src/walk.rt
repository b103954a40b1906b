// The walk over the script's bytes that notes what each record demands. A function calls itself on the children, the levels
// left fall, and the tables are carried along.
ghost use Rattle.std.specs.Prelude.{◌≡◌, length, ◌≤◌};
ghost use Rattle.definitions.specs.Limits.{variable_limit};
ghost use Rattle.definitions.specs.Bytes.{byte};
ghost use Rattle.definitions.specs.Tree.{Query};
ghost use Rattle.definitions.specs.Reading.{four_of, read_name, read_expr, read_cond, read_query, read_script};
ghost use Rattle.laws.specs.Walks.{Loads, Walked};
ghost use Rattle.facts.specs.Walk.{Joined, ExprNoted, CondNoted, QueryNoted, ScriptNoted};

use crate::{ExprRead, TablesRead, names};
use definitions::{LANG_MATCHES_TEXT_OFFSET, QUERY_OFFSET, REGEX_TEXT_OFFSET};
use facts::noting::Tables;

// An expression.
// Ruled out: abs of a string; a sum of which one side alone is a number.
pub fn type_expr(
    script: &[u8],
    leasts: &[u8],
    written: &[u8],
    at: usize,
    left: u8,
    tables: Tables,
) -> ExprRead
    requires loads { Loads (read_expr script.now (length leasts.now) left at) }
    requires written_len { length written.now ≡ variable_limit }
    requires joined { Joined tables }
    ensures { Walked (ExprNoted leasts.now written.now tables result.tables result.node) (read_expr script.now (length leasts.now) left at) result.next }
{
    let kind = script[at];
    let first = at + 1;
    let below = left - 1;
    if kind < 0x41 {
        let n = names::name_at(script, leasts, written, at, left);
        let place = n.place;
        let node = names::node_of(place);
        return ExprRead {
            next: n.next,
            node,
            tables,
        };
    }
    match kind {
        0x41 => ExprRead {
            next: first,
            node: 3,
            tables,
        },
        0x42 => {
            let e = type_expr(script, leasts, written, first, below, tables);
            let after = e.tables;
            ExprRead {
                next: e.next,
                node: 1,
                tables: after,
            }
        }
        0x43 => {
            let e = type_expr(script, leasts, written, first, below, tables);
            let after = e.tables.merged(e.node, 2);
            ExprRead {
                next: e.next,
                node: 2,
                tables: after,
            }
        }
        // plus and minus
        _ => {
            let e = type_expr(script, leasts, written, first, below, tables);
            let between = e.tables;
            let f = type_expr(script, leasts, written, e.next, below, between);
            let after = f.tables.merged(e.node, 2).merged(f.node, 2);
            ExprRead {
                next: f.next,
                node: 2,
                tables: after,
            }
        }
    }
}

// A test: regex, lang_matches, equal or less.
fn type_test(
    script: &[u8],
    leasts: &[u8],
    written: &[u8],
    at: usize,
    left: u8,
    tables: Tables,
) -> TablesRead
    requires loads { Loads (read_cond script.now (length leasts.now) left at) }
    requires bound { 0x55 ≤ byte script.now at }
    requires written_len { length written.now ≡ variable_limit }
    requires joined { Joined tables }
    ensures { Walked (CondNoted leasts.now written.now tables result.tables) (read_cond script.now (length leasts.now) left at) result.next }
{
    let kind = script[at];
    let below = left - 1;
    match kind {
        0x55 => {
            let text = at + REGEX_TEXT_OFFSET;
            let e = type_expr(script, leasts, written, text, below, tables);
            let after = e.tables.merged(e.node, 1);
            TablesRead {
                next: e.next,
                tables: after,
            }
        }
        0x56 => {
            let text = at + LANG_MATCHES_TEXT_OFFSET;
            let e = type_expr(script, leasts, written, text, below, tables);
            let after = e.tables.merged(e.node, 1);
            TablesRead {
                next: e.next,
                tables: after,
            }
        }
        _ => {
            let first = at + 1;
            let e = type_expr(script, leasts, written, first, below, tables);
            let between = e.tables;
            let f = type_expr(script, leasts, written, e.next, below, between);
            let after = f.tables.merged(e.node, f.node);
            TablesRead {
                next: f.next,
                tables: after,
            }
        }
    }
}

// A boolean.
// Ruled out: a regex over a number; what stands under not left out.
pub fn type_cond(
    script: &[u8],
    leasts: &[u8],
    written: &[u8],
    at: usize,
    left: u8,
    tables: Tables,
) -> TablesRead
    requires loads { Loads (read_cond script.now (length leasts.now) left at) }
    requires written_len { length written.now ≡ variable_limit }
    requires joined { Joined tables }
    ensures { Walked (CondNoted leasts.now written.now tables result.tables) (read_cond script.now (length leasts.now) left at) result.next }
{
    let kind = script[at];
    let first = at + 1;
    let below = left - 1;
    match kind {
        0x50..=0x51 => TablesRead {
            next: first,
            tables,
        },
        0x52..=0x53 => {
            let a = type_cond(script, leasts, written, first, below, tables);
            let between = a.tables;
            type_cond(script, leasts, written, a.next, below, between)
        }
        0x54 => type_cond(script, leasts, written, first, below, tables),
        _ => type_test(script, leasts, written, at, left, tables),
    }
}

// A pattern's four names: graph and subject are URIs, property and object are related.
fn type_pattern(
    script: &[u8],
    leasts: &[u8],
    written: &[u8],
    at: usize,
    left: u8,
    tables: Tables,
) -> TablesRead
    requires loads { Loads (four_of Query.pattern (read_name script.now (length leasts.now) left) at) }
    requires written_len { length written.now ≡ variable_limit }
    requires joined { Joined tables }
    ensures { Walked (QueryNoted leasts.now written.now tables result.tables)
        (four_of Query.pattern (read_name script.now (length leasts.now) left) at) result.next }
{
    let g = names::name_at(script, leasts, written, at, left);
    let s = names::name_at(script, leasts, written, g.next, left);
    let p = names::name_at(script, leasts, written, s.next, left);
    let o = names::name_at(script, leasts, written, p.next, left);
    let g_place = g.place;
    let graph = names::node_of(g_place);
    let s_place = s.place;
    let subject = names::node_of(s_place);
    let property = p.place;
    let object = o.place;
    let after = tables
        .merged(graph, 0)
        .merged(subject, 0)
        .related(property, object);
    TablesRead {
        next: o.next,
        tables: after,
    }
}

// A query.
// Ruled out: a pattern whose graph may be a literal; the second side of a union left out.
pub fn type_query(
    script: &[u8],
    leasts: &[u8],
    written: &[u8],
    at: usize,
    left: u8,
    tables: Tables,
) -> TablesRead
    requires loads { Loads (read_query script.now (length leasts.now) left at) }
    requires written_len { length written.now ≡ variable_limit }
    requires joined { Joined tables }
    ensures { Walked (QueryNoted leasts.now written.now tables result.tables) (read_query script.now (length leasts.now) left at) result.next }
{
    let kind = script[at];
    let first = at + 1;
    let below = left - 1;
    match kind {
        0x61 => type_pattern(script, leasts, written, first, below, tables),
        0x62..=0x63 => {
            let q = type_query(script, leasts, written, first, below, tables);
            let between = q.tables;
            type_query(script, leasts, written, q.next, below, between)
        }
        0x64 => type_cond(script, leasts, written, first, below, tables),
        _ => TablesRead {
            next: first,
            tables,
        },
    }
}

// A script.
// Ruled out: a from named over a literal; the block's script left out.
pub fn type_script(
    script: &[u8],
    leasts: &[u8],
    written: &[u8],
    at: usize,
    left: u8,
    tables: Tables,
) -> TablesRead
    requires loads { Loads (read_script script.now (length leasts.now) left at) }
    requires written_len { length written.now ≡ variable_limit }
    requires joined { Joined tables }
    ensures { Walked (ScriptNoted leasts.now written.now tables result.tables) (read_script script.now (length leasts.now) left at) result.next }
{
    let kind = script[at];
    let first = at + 1;
    let below = left - 1;
    match kind {
        0x71 => TablesRead {
            next: first,
            tables,
        },
        0x72 => {
            let n = names::name_at(script, leasts, written, first, below);
            let place = n.place;
            let node = names::node_of(place);
            let between = tables.merged(node, 0);
            type_script(script, leasts, written, n.next, below, between)
        }
        0x73 => {
            let query = at + QUERY_OFFSET;
            let q = type_query(script, leasts, written, query, below, tables);
            let between = q.tables;
            type_script(script, leasts, written, q.next, below, between)
        }
        _ => {
            let c = type_script(script, leasts, written, first, below, tables);
            let between = c.tables;
            type_script(script, leasts, written, c.next, below, between)
        }
    }
}
