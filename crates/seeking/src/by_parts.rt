// The seek part by part: the patterns and unions that name the variable sought, until all of them agree on a number; filters are asked with a number.
ghost use Rattle.std.specs.Prelude.{◌≡◌, false, ℕ, ◌≤◌, ◌<◌, length};
ghost use Rattle.std.proofs.Math.Option.{some};
ghost use Rattle.definitions.specs.Limits.{depth_limit, variable_limit};
ghost use Rattle.definitions.specs.Tree.{Query};
ghost use Rattle.definitions.specs.Reading.{read_query};
ghost use Rattle.laws.specs.Walks.{Loads};
ghost use Rattle.query.specs.StoreLent.{Stored, rows_of};
ghost use Rattle.query.specs.Eval.{RanksLent};
ghost use Rattle.seeking.specs.Seeking.{SeekOf, Denies};
ghost use Rattle.seeking.specs.Parts.{part_limit, PartsOf};

use crate::Part;
use crate::listing::{is_asked, is_sought};
use crate::seek::seek;
use definitions::DEPTH_LIMIT;
use keys::either;
use query::View;
use query::names::names_at;
use scan::least;

// The seek of the part at an offset, where it is asked.
fn seek_part(view: &View<'_>, at: usize, asked: bool, known: &[usize], v: usize, lo: usize) -> usize
    requires loads { Loads (read_query view.now.script.now view.now.context.loaded depth_limit at) }
    requires ranks_lent { RanksLent view.now.ranks.now view.now.table.now known.now view.now.context }
    requires stored { Stored view.now.quads.now view.now.context }
    ensures { (q : Query) (m : ℕ) → read_query view.now.script.now view.now.context.loaded depth_limit at ≡ some (q, m) →
        SeekOf view.now.ranks.now view.now.table.now known.now view.now.context (rows_of view.now.quads.now view.now.context) v lo result q }
{
    if !asked {
        return lo;
    }
    if view.script[at] == 0x61 {
        let first = at + 1;
        let below = DEPTH_LIMIT - 1;
        let names = names_at(view.script, view.context.loaded, first, below, known, v);
        return least(
            view.quads,
            view.context.quads,
            names.codes,
            lo,
            view.context.count,
        );
    }
    let s = seek(view, at, DEPTH_LIMIT, known, v, lo);
    s.least
}

// The least number from lo on with which each part may hold in which the variable is sought; of all parts, where it is told so. The count where there is none.
// Ruled out: every number passed over for a part that is not asked; the number after the one that is found.
pub fn seek_parts(
    view: &View<'_>,
    parts: &[Part],
    known: &[usize],
    v: usize,
    lo: usize,
    all: bool,
) -> usize
    requires parts_len_bound { length parts.now ≤ part_limit }
    requires parts_of { (q : Query) × PartsOf view.now.script.now view.now.context.loaded parts.now q }
    requires ranks_lent { RanksLent view.now.ranks.now view.now.table.now known.now view.now.context }
    requires stored { Stored view.now.quads.now view.now.context }
    requires v_lt_variable_limit { v < variable_limit }
    ensures { (q : Query) → PartsOf view.now.script.now view.now.context.loaded parts.now q →
        SeekOf view.now.ranks.now view.now.table.now known.now view.now.context (rows_of view.now.quads.now view.now.context) v lo result q }
{
    let count = view.context.count;
    let n = parts.len();
    let mut found = lo;
    let mut agreed = 0;
    let mut i = 0;
    while agreed < n {
        let part = &parts[i];
        let asked = all || is_sought(part, v);
        let number = seek_part(view, part.at, asked, known, v, found);
        if count <= number {
            return count;
        }
        let alike = either(number == found, agreed, 0);
        found = number;
        agreed = alike + 1;
        let next = i + 1;
        i = either(next < n, next, 0);
    }
    found
}

// Whether the parts that name a variable, and are no patterns, may hold with the number that it has. Unions that name the variable after it are left to the seek
// of that one.
// Ruled out: a number refused with which a filter holds; a filter asked with another number than the one that is known.
pub fn agree(
    view: &View<'_>,
    parts: &[Part],
    known: &[usize],
    v: usize,
    after: Option<usize>,
    number: usize,
) -> bool
    requires parts_len_bound { length parts.now ≤ part_limit }
    requires parts_of { (q : Query) × PartsOf view.now.script.now view.now.context.loaded parts.now q }
    requires ranks_lent { RanksLent view.now.ranks.now view.now.table.now known.now view.now.context }
    requires stored { Stored view.now.quads.now view.now.context }
    requires v_lt_variable_limit { v < variable_limit }
    requires number_lt_count { number < view.now.context.count }
    ensures { result ≡ false → (q : Query) → PartsOf view.now.script.now view.now.context.loaded parts.now q →
        Denies view.now.ranks.now view.now.table.now known.now view.now.context (rows_of view.now.quads.now view.now.context) v number q }
{
    for part in parts {
        if is_asked(part, v, after) && view.script[part.at] != 0x61 {
            let s = seek(view, part.at, DEPTH_LIMIT, known, v, number);
            if s.least != number {
                return false;
            }
        }
    }
    true
}
