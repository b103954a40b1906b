// A block's first answer after its last tuple.
ghost use Rattle.std.specs.Prelude.{◌≡◌, length, get_or, ℕ, ◌≤◌, ◌<◌};
ghost use Rattle.query.specs.Codes.{bindings_of};
ghost use Rattle.search.specs.Finding.{clear, numbers_from, WorldIn, AnswerOf};
ghost use Rattle.definitions.specs.Limits.{pair_limit, variable_limit};

use crate::find::{find, find_after};
use crate::{Block, Search};
use definitions::{PAIR_LIMIT, VARIABLE_LIMIT};
use query::View;
use scan::FREE;
use seeking::listing::parts_of;

// What is known as a block's search begins: nothing of the block's own variables.
fn cleared(known: [usize; VARIABLE_LIMIT], block: Block) -> [usize; VARIABLE_LIMIT]
    requires size_le_pair_limit { block.size ≤ pair_limit }
    requires by_index { (j : ℕ) → get_or block.vars j 0 < variable_limit }
    ensures result_value { bindings_of result ≡ clear (numbers_from block.size block.vars 0) (bindings_of known) }
    ensures result_len { length result ≡ variable_limit }
{
    let mut opened = known;
    for &v in &block.vars[..block.size] {
        opened[v] = FREE;
    }
    opened
}

// The first answer of a block; after the last tuple, where the block has started. `known` has the number of each bound variable's term.
// Ruled out: the last tuple found again; the block's own variables kept as they were bound before.
pub fn answer(
    view: &View<'_>,
    block: Block,
    known: [usize; VARIABLE_LIMIT],
    started: bool,
) -> Option<[usize; PAIR_LIMIT]>
    requires world { WorldIn view.now block }
    ensures { (w : WorldIn view.now block) → AnswerOf w known started result }
{
    let opened = cleared(known, block);
    let listed = parts_of(view, block.at);
    let search = Search {
        view,
        block,
        parts: &listed.list[..listed.size],
    };
    if started {
        find_after(&search, opened, 0)
    } else {
        find(&search, opened, 0, 0)
    }
}
