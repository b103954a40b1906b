// The saved run from its bytes.
ghost use Rattle.std.specs.Prelude.{◌≡◌, map, eqb, leb, length, ◌+◌, ◌*◌, ◌≤◌};
ghost use Rattle.std.specs.List.{list_all};
ghost use Rattle.definitions.specs.Bytes.{word};
ghost use Rattle.std.proofs.Math.Option.{none};
ghost use Rattle.definitions.specs.Limits.{saved_width, items_offset, item_width, depth_limit};
ghost use Rattle.definitions.specs.Exports.{words_from, item_at, items_from, items_good, saved_from};
ghost use Rattle.layout.specs.ReadSaved.{control_in, store_in, read_of};

use crate::SavedRead;
use definitions::{
    BINDINGS_OFFSET, BOUND_OFFSET, FETCHED_OFFSET, GRAPH_LIMIT, ITEM_LIMIT, ITEM_WIDTH,
    ITEMS_OFFSET, PAIR_LIMIT, SavedControl, SavedItem, SavedRun, SavedStore, TYPES_OFFSET,
    VARIABLE_LIMIT,
};
use fields::numbers::number_at;
use store::bare::{bare_run, zero_item};

// As many 2-byte numbers from an offset on as there are places for them.
fn read_words(b: &[u8], at: usize, out: &mut [u16])
    requires { at + 2 * length out.old ≤ length b.now }
    ensures { out.new ≡ words_from (length out.old) b.now at }
{
    for i in 0..out.len() {
        out[i] = number_at(b, at + 2 * i);
    }
}

// A mark is 0 or 1.
fn marks_good(marks: &[u8]) -> bool
    ensures { result ≡ list_all (λ m. leb m 1) marks.now }
{
    marks.iter().all(|&mark| mark <= 1)
}

fn read_marks(marks: &[u8], out: &mut [bool])
    requires { length out.old ≡ length marks.now }
    ensures { out.new ≡ map (eqb 1) marks.now }
{
    for (i, &mark) in marks.iter().enumerate() {
        out[i] = 1 == mark;
    }
}

// The item whose bytes begin at an offset.
fn read_item(b: &[u8], at: usize) -> SavedItem
    requires { at + 12 ≤ length b.now }
    ensures { result ≡ item_at b.now at }
{
    let mut last = [0u16; PAIR_LIMIT];
    read_words(b, at + 4, &mut last);
    SavedItem {
        at: number_at(b, at),
        started: b[at + 2] == 1,
        last,
    }
}

// Of each item in use the mark is 0 or 1, and the byte after it zero.
fn items_good(b: &[u8], height: usize) -> bool
    requires { items_offset + item_width * height ≤ length b.now }
    ensures { result ≡ items_good height b.now items_offset }
{
    for i in 0..height {
        let at = ITEMS_OFFSET + ITEM_WIDTH * i;
        if 1 < b[at + 2] {
            return false;
        }
        if b[at + 3] != 0 {
            return false;
        }
    }
    true
}

// The items in use, and zeros in the places above them.
fn read_items(b: &[u8], height: usize) -> [SavedItem; ITEM_LIMIT]
    requires height_le_depth_limit { height ≤ depth_limit }
    requires height_in_bounds { items_offset + item_width * height ≤ length b.now }
    ensures { result ≡ items_from depth_limit height b.now items_offset }
{
    let empty = zero_item();
    let mut items = [empty; ITEM_LIMIT];
    for i in 0..height {
        items[i] = read_item(b, ITEMS_OFFSET + ITEM_WIDTH * i);
    }
    items
}

fn read_control(b: &[u8]) -> SavedControl
    requires b_bound { word b.now 0 ≤ depth_limit }
    requires b_len { length b.now ≡ saved_width }
    ensures { result ≡ control_in b.now }
{
    let mut types = [0u8; VARIABLE_LIMIT];
    types.copy_from_slice(&b[TYPES_OFFSET..BOUND_OFFSET]);
    let mut bound = [false; VARIABLE_LIMIT];
    read_marks(&b[BOUND_OFFSET..BINDINGS_OFFSET], &mut bound);
    let mut bindings = [0u16; VARIABLE_LIMIT];
    read_words(b, BINDINGS_OFFSET, &mut bindings);
    let height = number_at(b, 0);
    SavedControl {
        height,
        types,
        bound,
        bindings,
        items: read_items(b, height as usize),
    }
}

fn read_store(b: &[u8]) -> SavedStore
    requires { length b.now ≡ saved_width }
    ensures { result ≡ store_in b.now }
{
    let mut fetched = [0u16; GRAPH_LIMIT];
    read_words(b, FETCHED_OFFSET, &mut fetched);
    SavedStore {
        quads: number_at(b, 2),
        graphs: number_at(b, 4),
        fetched,
    }
}

// No saved run has the bytes.
fn unsound() -> SavedRead
    ensures { result ≡ read_of none }
{
    let saved = bare_run(0, [0; VARIABLE_LIMIT]);
    SavedRead { ok: false, saved }
}

// The saved run that bytes hold, where they hold one.
pub fn read_saved(b: &[u8]) -> SavedRead
    requires { length b.now ≡ saved_width }
    ensures { result ≡ read_of (saved_from b.now) }
{
    let height = number_at(b, 0);
    if ITEM_LIMIT < height as usize {
        return unsound();
    }
    if !marks_good(&b[BOUND_OFFSET..BINDINGS_OFFSET]) {
        return unsound();
    }
    if !items_good(b, height as usize) {
        return unsound();
    }
    let control = read_control(b);
    let store = read_store(b);
    SavedRead {
        ok: true,
        saved: SavedRun { control, store },
    }
}
