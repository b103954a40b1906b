// The least number from which on a query could still hold for some choice of the variables that are not known.
ghost use Rattle.definitions.specs.Reading.{read_cond, read_query};
ghost use Rattle.laws.specs.Walks.{Loads};
ghost use Rattle.laws.specs.Walks.{Walked};
ghost use Rattle.query.specs.StoreLent.{Stored, rows_of};
ghost use Rattle.query.specs.Eval.{RanksLent};
ghost use Rattle.seeking.specs.Seeking.{FilterOf, SeekOf};

use crate::Sought;
use ends::after;
use query::View;
use query::may::may_cond;
use query::names::names_at;
use scan::least;

// A filter: lo, or the count where it cannot hold any more.
fn seek_filter(view: &View<'_>, at: usize, left: u8, known: &[usize], lo: usize) -> Sought
    requires loads { Loads (read_cond view.now.script.now view.now.context.loaded left at) }
    requires ranks_lent { RanksLent view.now.ranks.now view.now.table.now known.now view.now.context }
    ensures { Walked (FilterOf view.now.ranks.now view.now.table.now known.now view.now.context lo result.least)
        (read_cond view.now.script.now view.now.context.loaded left at) result.next }
{
    let count = view.context.count;
    if lo == count {
        let next = after(view.ends, view.script.len(), at);
        return Sought { next, least: lo };
    }
    let m = may_cond(view, at, left, known, true);
    let least = if m.holds { lo } else { count };
    Sought {
        next: m.next,
        least,
    }
}

// The least number from lo on that the variable v can have in the query at an offset; the count where there is none.
// Ruled out: a union of its first part only; a filter passed over whose variables are all known.
pub fn seek(view: &View<'_>, at: usize, left: u8, known: &[usize], v: usize, lo: usize) -> Sought
    requires loads { Loads (read_query view.now.script.now view.now.context.loaded left at) }
    requires ranks_lent { RanksLent view.now.ranks.now view.now.table.now known.now view.now.context }
    requires stored { Stored view.now.quads.now view.now.context }
    ensures { Walked (SeekOf view.now.ranks.now view.now.table.now known.now view.now.context (rows_of view.now.quads.now view.now.context) v lo result.least)
        (read_query view.now.script.now view.now.context.loaded left at) result.next }
{
    let script = view.script;
    let count = view.context.count;
    let kind = script[at];
    let first = at + 1;
    let below = left - 1;
    match kind {
        0x61 => {
            let names = names_at(script, view.context.loaded, first, below, known, v);
            let found = least(view.quads, view.context.quads, names.codes, lo, count);
            Sought {
                next: names.next,
                least: found,
            }
        }
        0x62 => {
            let a = seek(view, first, below, known, v, lo);
            if a.least == count {
                let next = after(view.ends, script.len(), at);
                return Sought {
                    next,
                    least: a.least,
                };
            }
            seek(view, a.next, below, known, v, a.least)
        }
        0x63 => {
            let a = seek(view, first, below, known, v, lo);
            if a.least == lo {
                let next = after(view.ends, script.len(), at);
                return Sought { next, least: lo };
            }
            let b = seek(view, a.next, below, known, v, lo);
            let least = a.least.min(b.least);
            Sought {
                next: b.next,
                least,
            }
        }
        0x64 => seek_filter(view, first, below, known, lo),
        _ => Sought {
            next: first,
            least: lo,
        },
    }
}
