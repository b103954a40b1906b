// A query taken apart below `both`: each part holds wherever the query holds.
ghost use Rattle.std.specs.Prelude.{◌≡◌, true, ℕ, ◌≤◌, ◌<◌, length, take};
ghost use Rattle.std.proofs.Math.Option.{some};
ghost use Rattle.definitions.specs.Limits.{depth_limit, variable_limit};
ghost use Rattle.definitions.specs.Tree.{Query};
ghost use Rattle.definitions.specs.Reading.{read_query};
ghost use Rattle.laws.specs.Walks.{Loads};
ghost use Rattle.seeking.specs.Parts.{part_limit, PartsOf};

use crate::{PART_LIMIT, Part, Parts};
use definitions::VARIABLE_LIMIT;
use ends::after;
use query::View;

// The variables that the bytes before an offset may name, a bit for each. A byte of a text may look like a name: then there is one too many, which costs
// time alone.
fn variables_in(script: &[u8], from: usize, to: usize) -> usize
    requires from_lt_to { from < to }
    requires to_in_bounds { to ≤ length script.now }
{
    let mut named = 0usize;
    for i in from + 1..to {
        if script[i - 1] == 0x31 {
            let v = script[i] % (VARIABLE_LIMIT as u8);
            named = named | (1usize << (v as usize));
        }
    }
    named
}

// Whether a part may name a variable.
fn names(part: &Part, v: usize) -> bool
    requires { v < variable_limit }
{
    (part.named >> v) % 2 == 1
}

// Whether a variable is sought in a part: it may name it, and is no filter.
pub fn is_sought(part: &Part, v: usize) -> bool
    requires { v < variable_limit }
{
    names(part, v) && !part.filter
}

// Whether a part is asked with a number of a variable: it may name it, and is a filter or does not name the variable after it.
pub fn is_asked(part: &Part, v: usize, after: Option<usize>) -> bool
    requires { v < variable_limit }
{
    let next_named = match after {
        Some(next) => next < VARIABLE_LIMIT && names(part, next),
        None => false,
    };
    names(part, v) && (part.filter || !next_named)
}

// Whether a record is taken apart, where so many are listed or pending: it is `both`, and there is room for its halves.
fn splits(kind: u8, records: usize) -> bool
    ensures { result ≡ true → (kind ≡ 0x62) × (records < part_limit) }
{
    (kind == 0x62) && (records < PART_LIMIT)
}

// The parts of the query at an offset.
// Ruled out: the parts of a union taken for parts of the query; an offset at which none of them stands.
pub fn parts_of(view: &View<'_>, at: usize) -> Parts
    requires loads { Loads (read_query view.now.script.now view.now.context.loaded depth_limit at) }
    ensures size_le_part_limit { (result.size ≤ part_limit) × (length result.list ≡ part_limit) }
    ensures parts_of { (q : Query) (m : ℕ) → read_query view.now.script.now view.now.context.loaded depth_limit at ≡ some (q, m) →
        PartsOf view.now.script.now view.now.context.loaded (take result.size result.list) q }
{
    let script = view.script;
    let mut list = [Part {
        at: 0,
        named: 0,
        filter: false,
    }; PART_LIMIT];
    let mut count = 0;
    let mut pending = 1;
    let mut here = at;
    while 0 < pending {
        if splits(script[here], count + pending) {
            here += 1;
            pending += 1;
        } else {
            let next = after(view.ends, script.len(), here);
            list[count] = Part {
                at: here,
                named: variables_in(script, here, next),
                filter: script[here] == 0x64,
            };
            count += 1;
            pending -= 1;
            here = next;
        }
    }
    Parts { size: count, list }
}
