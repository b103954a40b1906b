// One tuple tried on a block's query.
ghost use Rattle.search.specs.Finding.{WorldIn};
ghost use Rattle.search.specs.Trying.{TriedOf};

use crate::{Block, Tried};
use codes::has_type;
use definitions::{DEPTH_LIMIT, PAIR_LIMIT, VARIABLE_LIMIT};
use query::View;
use query::eval::eval_query;

// The tuple from place k on; none where its terms do not have the variables' types. Ruled out: a count of other records than the rule evaluates; a tuple tried whatever its terms' types are.
pub fn try_tuple(
    view: &View<'_>,
    block: &Block,
    known: [usize; VARIABLE_LIMIT],
    tuple: [usize; PAIR_LIMIT],
    k: usize,
) -> Option<Tried>
    requires world { WorldIn view.now block.now }
    ensures { (w : WorldIn view.now block.now) → TriedOf w known tuple k result }
{
    if block.size <= k {
        let t = eval_query(view, block.at, DEPTH_LIMIT, &known);
        return Some(Tried {
            holds: t.holds,
            records: t.records,
        });
    }
    let i = tuple[k];
    if view.context.count <= i {
        return None;
    }
    if !has_type(view.leasts[i], block.types[k]) {
        return None;
    }
    let v = block.vars[k];
    let mut with = known;
    with[v] = i;
    try_tuple(view, block, with, tuple, k + 1)
}
