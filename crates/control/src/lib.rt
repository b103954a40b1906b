// The control's half of soundness (refusal 10): whether stack and bindings of a saved control are sound.
#![tactic(auto)]

ghost use Rattle.std.specs.Prelude.{◌≡◌, true, ◌≤◌, ltb, length, take};
ghost use Rattle.std.specs.List.{list_all};
ghost use Rattle.definitions.specs.Reading.{read_script, parsed};
ghost use Rattle.laws.specs.Walks.{Loads};
ghost use Rattle.laws.specs.ReadAnswers.{is_some, passes};
ghost use Rattle.control.specs.Control.{all_bound, last_held, item_held, items_held, binding_fits, bindings_fit, ControlOf};
ghost use Rattle.definitions.specs.Limits.{depth_limit, pair_limit};

use codes::has_type;
use definitions::{DEPTH_LIMIT, ITEM_LIMIT, PAIR_LIMIT, SavedControl, SavedItem, VARIABLE_LIMIT};
use places::place_at;
use scope::scope::free_in;

// Whether each flagged variable is bound.
fn all_bound(free: [bool; VARIABLE_LIMIT], bound: [bool; VARIABLE_LIMIT]) -> bool
    ensures { result ≡ all_bound free bound }
{
    for v in 0..VARIABLE_LIMIT {
        let good = !free[v] | bound[v];
        if !good {
            return false;
        }
    }
    true
}

// Whether a tuple's first numbers are all numbers of terms.
fn tuple_fits(last: [u16; PAIR_LIMIT], n: usize, count: usize) -> bool
    requires { n ≤ pair_limit }
    ensures { result ≡ list_all (λ i. ltb i count) (take n last) }
{
    last[..n].iter().all(|&number| (number as usize) < count)
}

// Whether an item's last tuple, which only an each block has, names terms.
fn last_sound(script: &[u8], loaded: usize, item: SavedItem, count: usize) -> bool
    requires { Loads (read_script script.now loaded depth_limit item.«at») }
    ensures { result ≡ passes (λ p. last_held count item p.0) (read_script script.now loaded depth_limit item.«at») }
{
    let started = item.started;
    if !started {
        return true;
    }
    let offset = item.at;
    let at = offset as usize;
    if script[at] != 0x73 {
        return true;
    }
    if script[at + 1] != 1 {
        return true;
    }
    let n = script[at + 2] as usize;
    let last = item.last;
    tuple_fits(last, n, count)
}

// Whether an item is a record of kinds 71 to 74 at a depth of at least its place, its free variables bound.
fn item_sound(
    script: &[u8],
    loaded: usize,
    item: SavedItem,
    place: usize,
    bound: [bool; VARIABLE_LIMIT],
    count: usize,
) -> bool
    requires { is_some (parsed loaded script.now) ≡ true }
    ensures { result ≡ passes (item_held count bound place item) (parsed loaded script.now) }
{
    let offset = item.at;
    let at = offset as usize;
    let Some(depth) = place_at(script, loaded, at) else {
        return false;
    };
    let deep = depth as usize;
    if deep < place {
        return false;
    }
    let free = free_in(script, loaded, at, DEPTH_LIMIT);
    if !all_bound(free, bound) {
        return false;
    }
    last_sound(script, loaded, item, count)
}

// Whether the items below a height are sound, from the top down.
fn stack_sound(
    script: &[u8],
    loaded: usize,
    height: u16,
    items: [SavedItem; ITEM_LIMIT],
    bound: [bool; VARIABLE_LIMIT],
    count: usize,
) -> bool
    requires script_value { is_some (parsed loaded script.now) ≡ true }
    requires height_le_depth_limit { height ≤ depth_limit }
    ensures { result ≡ passes (items_held count bound items height) (parsed loaded script.now) }
{
    for below in (0..height as usize).rev() {
        if !item_sound(script, loaded, items[below], below + 1, bound, count) {
            return false;
        }
    }
    true
}

// Whether a variable is not bound, or a pair binds it and it holds a term of its type.
fn binding_sound(leasts: &[u8], count: usize, bound: bool, number: u16, ty: u8) -> bool
    requires { count ≤ length leasts.now }
    ensures { result ≡ binding_fits leasts.now count bound number ty }
{
    if !bound {
        return true;
    }
    if ty == 0 {
        return false;
    }
    let i = number as usize;
    if count <= i {
        return false;
    }
    has_type(leasts[i], ty)
}

// Whether the bindings are sound, variable by variable.
fn bindings_sound(
    leasts: &[u8],
    count: usize,
    bound: [bool; VARIABLE_LIMIT],
    numbers: [u16; VARIABLE_LIMIT],
    types: [u8; VARIABLE_LIMIT],
) -> bool
    requires { count ≤ length leasts.now }
    ensures { result ≡ bindings_fit leasts.now count bound numbers types }
{
    for v in 0..VARIABLE_LIMIT {
        if !binding_sound(leasts, count, bound[v], numbers[v], types[v]) {
            return false;
        }
    }
    true
}

// Whether stack and bindings are sound.
// Ruled out: an item higher than its record is deep let pass; a free variable of an item that is not bound let pass.
pub fn control_sound(
    script: &[u8],
    loaded: usize,
    saved: SavedControl,
    count: usize,
    leasts: &[u8],
) -> bool
    requires script_value { is_some (parsed loaded script.now) ≡ true }
    requires count_in_bounds { count ≤ length leasts.now }
    ensures { ControlOf script.now loaded saved count leasts.now result }
{
    let height = saved.height;
    if ITEM_LIMIT < height as usize {
        return false;
    }
    let items = saved.items;
    let bound = saved.bound;
    if !stack_sound(script, loaded, height, items, bound, count) {
        return false;
    }
    let numbers = saved.bindings;
    let types = saved.types;
    bindings_sound(leasts, count, bound, numbers, types)
}
