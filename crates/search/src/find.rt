// The first answer of a block, variable by variable.
ghost use Rattle.std.specs.Prelude.{◌≡◌, length, ◌<◌, IfSome};
ghost use Rattle.search.specs.Finding.{WorldOf, PartedOf, NextOf, HopeAt, HopeOf, WorthOf, FindOf, AfterOf};
ghost use Rattle.definitions.specs.Limits.{pair_limit, variable_limit};

use crate::Search;
use crate::types::skip;
use codes::has_type;
use definitions::{DEPTH_LIMIT, PAIR_LIMIT, VARIABLE_LIMIT};
use query::eval::eval_query;
use seeking::by_parts::{agree, seek_parts};

// The next number for the variable at place k, from lo on: of its type, and with which no part that names it is out. The first variable is asked for all parts.
// The count of terms stands for none, as in the seek: it is compared with the other numbers, and an Option would be taken apart each time.
fn next(search: &Search<'_>, known: &[usize], k: usize, lo: usize) -> usize
    requires world { WorldOf search.now }
    requires parted { PartedOf search.now }
    requires known_len { length known.now ≡ variable_limit }
    requires k_lt_size { k < search.now.block.size }
    ensures { (w : WorldOf search.now) → NextOf w known.now k lo result }
{
    let view = search.view;
    let count = view.context.count;
    let v = search.block.vars[k];
    let mut from = lo;
    while from < count {
        let s = seek_parts(view, search.parts, known, v, from, k == 0);
        let typed = skip(view.leasts, search.block.types[k], s, count);
        if typed == s {
            return s;
        }
        from = typed;
    }
    count
}

// Whether the variable at place j still has a number with which the query may hold. What a filter says of that variable alone is so found out before
// others are chosen.
fn hope(search: &Search<'_>, known: [usize; VARIABLE_LIMIT], j: usize) -> bool
    requires world { WorldOf search.now }
    requires parted { PartedOf search.now }
    requires j_lt_size { j < search.now.block.size }
    ensures { (w : WorldOf search.now) → HopeAt w known j result }
{
    let count = search.view.context.count;
    let v = search.block.vars[j];
    let mut lo = 0;
    while lo < count {
        let number = next(search, &known, j, lo);
        if count <= number {
            return false;
        }
        let mut with = known;
        with[v] = number;
        if agree(search.view, search.parts, &with, v, None, number) {
            return true;
        }
        lo = number + 1;
    }
    false
}

// Whether each variable from a place on still has a number.
fn hopeful(search: &Search<'_>, known: [usize; VARIABLE_LIMIT], from: usize) -> bool
    requires world { WorldOf search.now }
    requires parted { PartedOf search.now }
    ensures { (w : WorldOf search.now) → HopeOf w known from result }
{
    for j in from..search.block.size {
        if !hope(search, known, j) {
            return false;
        }
    }
    true
}

// Whether a number chosen for the variable at place k is worth the search of the variables after it: not asked of the last one, which is tried at once.
fn worth(search: &Search<'_>, known: [usize; VARIABLE_LIMIT], k: usize, number: usize) -> bool
    requires world { WorldOf search.now }
    requires parted { PartedOf search.now }
    requires k_lt_size { k < search.now.block.size }
    requires number_lt_count { number < search.now.view.now.context.count }
    ensures { (w : WorldOf search.now) → WorthOf w known k number result }
{
    let after = k + 1;
    if search.block.size <= after {
        return true;
    }
    let v = search.block.vars[k];
    let second = search.block.vars[after];
    if !agree(search.view, search.parts, &known, v, Some(second), number) {
        return false;
    }
    hopeful(search, known, after + 1)
}

// The first tuple from level k on whose first number is lo or more.
// Ruled out: a term skipped after each one tried; a number tried whatever its term's type is.
pub fn find(
    search: &Search<'_>,
    known: [usize; VARIABLE_LIMIT],
    k: usize,
    lo: usize,
) -> Option<[usize; PAIR_LIMIT]>
    requires world { WorldOf search.now }
    requires parted { PartedOf search.now }
    ensures find_of { (w : WorldOf search.now) → FindOf w known k lo result }
    ensures tuple_len { IfSome result (λ t. length t ≡ pair_limit) }
{
    if search.block.size <= k {
        let t = eval_query(search.view, search.block.at, DEPTH_LIMIT, &known);
        return t.holds.then_some([0; PAIR_LIMIT]);
    }
    let count = search.view.context.count;
    let v = search.block.vars[k];
    let mut from = lo;
    while from < count {
        let i = next(search, &known, k, from);
        if count <= i {
            return None;
        }
        let mut with = known;
        with[v] = i;
        if worth(search, with, k, i) {
            if let Some(mut tuple) = find(search, with, k + 1, 0) {
                tuple[k] = i;
                return Some(tuple);
            }
        }
        from = i + 1;
    }
    None
}

// The first tuple from level k on that comes after the last one: with its number here and a later one after it, or with a greater number here.
// Ruled out: the last tuple found again; a tuple after it passed over that shares its first number.
pub fn find_after(
    search: &Search<'_>,
    known: [usize; VARIABLE_LIMIT],
    k: usize,
) -> Option<[usize; PAIR_LIMIT]>
    requires world { WorldOf search.now }
    requires parted { PartedOf search.now }
    ensures after_of { (w : WorldOf search.now) → AfterOf w known k result }
    ensures tuple_len { IfSome result (λ t. length t ≡ pair_limit) }
{
    if search.block.size <= k {
        return None;
    }
    let l = search.block.last[k];
    if search.view.context.count <= l {
        return None;
    }
    if has_type(search.view.leasts[l], search.block.types[k]) {
        let v = search.block.vars[k];
        let mut with = known;
        with[v] = l;
        if let Some(mut tuple) = find_after(search, with, k + 1) {
            tuple[k] = l;
            return Some(tuple);
        }
    }
    find(search, known, k, l + 1)
}
