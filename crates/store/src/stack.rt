// Operations on the saved control: its stack and its bindings. One that changes it copies it first and reads only the copy: a parameter that
// is read as well stays a second copy in the machine code.
ghost use Rattle.std.specs.Prelude.{◌≡◌, ℕ, ◌+◌, ◌*◌, ◌<◌, ◌-◌, ◌≤◌, length, take};
ghost use Rattle.definitions.specs.Bytes.{byte};
ghost use Rattle.store.specs.Stack.{pushed, popped, replaced, fresh_item, top_of, bound_all};
ghost use Rattle.laws.specs.Pairs.{pair_variables};
ghost use Rattle.definitions.specs.Limits.{depth_limit, pair_limit, variable_limit};

use definitions::{PAIR_LIMIT, SavedControl, SavedItem};
use fields::numbers::index;

// An item that has used no tuple.
// Ruled out: an item that starts after a tuple; one at another offset.
pub fn fresh_item(at: u16) -> SavedItem
    ensures { result ≡ fresh_item at }
{
    SavedItem {
        at,
        started: false,
        last: [0; PAIR_LIMIT],
    }
}

// The item on top.
// Ruled out: the item at the bottom; the place above the top.
pub fn top(control: SavedControl) -> SavedItem
    requires height_nonzero { 0 < control.height }
    requires height_le_depth_limit { control.height ≤ depth_limit }
    ensures { result ≡ top_of control }
{
    let n = control.height - 1;
    let place = n as usize;
    control.items[place]
}

// Another item on top, and one more above it.
// Ruled out: an item above the one that was there; a height that stays.
pub fn replace_and_push(control: SavedControl, below: SavedItem, above: SavedItem) -> SavedControl
    requires height_nonzero { 0 < control.height }
    requires height_lt_depth_limit { control.height < depth_limit }
    ensures { result ≡ pushed (replaced control below) above }
{
    let mut next = control;
    let n = next.height;
    let place = n as usize;
    let under = place - 1;
    next.items[under] = below;
    next.items[place] = above;
    next.height = n + 1;
    next
}

// One item less; its place is zero again.
// Ruled out: an item left above the height; the bottom one dropped.
pub fn pop(control: SavedControl) -> SavedControl
    requires height_nonzero { 0 < control.height }
    requires height_le_depth_limit { control.height ≤ depth_limit }
    ensures { result ≡ popped control }
{
    let mut next = control;
    let n = next.height - 1;
    let place = n as usize;
    next.items[place] = fresh_item(0);
    next.height = n;
    next
}

// Another item on top.
// Ruled out: an item added; the one below replaced.
pub fn replace(control: SavedControl, item: SavedItem) -> SavedControl
    requires height_nonzero { 0 < control.height }
    requires height_le_depth_limit { control.height ≤ depth_limit }
    ensures { result ≡ replaced control item }
{
    let mut next = control;
    let n = next.height - 1;
    let place = n as usize;
    next.items[place] = item;
    next
}

// A tuple's terms for the variables of a block's pairs, which begin at an offset.
// Ruled out: the first variable left out; a variable bound twice keeping its later term.
pub fn bind_tuple(
    control: SavedControl,
    script: &[u8],
    at: usize,
    count: usize,
    tuple: [u16; PAIR_LIMIT],
) -> SavedControl
    requires count_in_bounds { at + 2 * count ≤ length script.now }
    requires count_le_pair_limit { count ≤ pair_limit }
    requires by_index { (k : ℕ) → k < count → byte script.now (at + 2 * k) < variable_limit }
    ensures { result ≡ bound_all control (pair_variables count script.now at) (take count tuple) }
{
    let mut next = control;
    let mut bound = next.bound;
    let mut bindings = next.bindings;
    for k in (0..count).rev() {
        let from = at + 2 * k;
        let v = index(script[from]);
        let term = tuple[k];
        bound[v] = true;
        bindings[v] = term;
    }
    next.bound = bound;
    next.bindings = bindings;
    next
}
