// The saved run to its bytes.
ghost use Rattle.std.specs.Prelude.{◌≡◌, map, length, ◌*◌};
ghost use Rattle.definitions.specs.Bytes.{little_bytes};
ghost use Rattle.definitions.specs.Limits.{saved_width, item_width, depth_limit};
ghost use Rattle.definitions.specs.Exports.{mark_of, words, item_bytes, items_bytes, saved_bytes};

use definitions::{
    BINDINGS_OFFSET, BOUND_OFFSET, FETCHED_OFFSET, ITEM_LIMIT, ITEM_WIDTH, ITEMS_OFFSET,
    SAVED_WIDTH, SavedItem, SavedRun, TYPES_OFFSET,
};

// A number, little endian, in as many bytes as there are places.
pub fn write_number(n: u64, out: &mut [u8])
    ensures { out.new ≡ little_bytes (length out.old) n }
{
    let mut rest = n;
    for i in 0..out.len() {
        let low = rest % 256;
        out[i] = low as u8;
        rest /= 256;
    }
}

// A number in two bytes.
pub fn write_word(n: u16, out: &mut [u8])
    requires { length out.old ≡ 2 }
    ensures { out.new ≡ little_bytes 2 n }
{
    write_number(n as u64, out);
}

// Numbers one after the other.
fn write_words(numbers: &[u16], out: &mut [u8])
    requires { length out.old ≡ 2 * length numbers.now }
    ensures { out.new ≡ words numbers.now }
{
    let mut at = 0;
    for &number in numbers {
        let end = at + 2;
        write_word(number, &mut out[at..end]);
        at = end;
    }
}

fn write_marks(marks: &[bool], out: &mut [u8])
    requires { length out.old ≡ length marks.now }
    ensures { out.new ≡ map mark_of marks.now }
{
    for (i, &mark) in marks.iter().enumerate() {
        out[i] = u8::from(mark);
    }
}

fn write_item(item: SavedItem, out: &mut [u8])
    requires { length out.old ≡ item_width }
    ensures { out.new ≡ item_bytes item }
{
    let last = item.last;
    write_word(item.at, &mut out[0..2]);
    out[2] = u8::from(item.started);
    out[3] = 0;
    write_words(&last, &mut out[4..ITEM_WIDTH]);
}

fn write_items(items: [SavedItem; ITEM_LIMIT], out: &mut [u8])
    requires { length out.old ≡ depth_limit * item_width }
    ensures { out.new ≡ items_bytes items }
{
    let mut at = 0;
    for item in items {
        let end = at + ITEM_WIDTH;
        write_item(item, &mut out[at..end]);
        at = end;
    }
}

// The saved run's bytes.
pub fn write_saved(run: SavedRun, out: &mut [u8])
    requires { length out.old ≡ saved_width }
    ensures { out.new ≡ saved_bytes run }
{
    let control = run.control;
    let store = run.store;
    let counts = [control.height, store.quads, store.graphs];
    let types = control.types;
    let bound = control.bound;
    let bindings = control.bindings;
    let fetched = store.fetched;
    let items = control.items;
    write_words(&counts, &mut out[0..TYPES_OFFSET]);
    out[TYPES_OFFSET..BOUND_OFFSET].copy_from_slice(&types);
    write_marks(&bound, &mut out[BOUND_OFFSET..BINDINGS_OFFSET]);
    write_words(&bindings, &mut out[BINDINGS_OFFSET..FETCHED_OFFSET]);
    write_words(&fetched, &mut out[FETCHED_OFFSET..ITEMS_OFFSET]);
    write_items(items, &mut out[ITEMS_OFFSET..SAVED_WIDTH]);
}
