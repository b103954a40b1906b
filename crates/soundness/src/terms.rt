// The term table: its terms are all different, and begin as loading numbers them.
ghost use Rattle.std.specs.Prelude.{◌≡◌, true};
ghost use Rattle.definitions.specs.Terms.{same_term};
ghost use Rattle.definitions.specs.Saved.{terms_in};
ghost use Rattle.fields.specs.Answers.{distinct_in};
ghost use Rattle.table.specs.Table.{HoldsTerms};
ghost use Rattle.soundness.specs.Store.{begins_in, terms_sound};

use definitions::SLOT_WIDTH;
use fields::numbers::same_bytes;
use table::hashes::hash_slots;
use table::slots::slots_distinct;

// Whether a table begins with the terms of another.
fn begins_with(loading: &[u8], loaded: usize, table: &[u8], count: usize) -> bool
    requires holds_terms { HoldsTerms loading.now loaded }
    requires holds_terms_2 { HoldsTerms table.now count }
    ensures { result ≡ begins_in (terms_in loading.now) (terms_in table.now) }
{
    if count < loaded {
        return false;
    }
    let end = loaded * SLOT_WIDTH;
    same_bytes(&loading[..end], &table[..end])
}

// Whether a table's terms are different ones that begin with those of loading, which are different themselves.
// Ruled out: the last of loading's left out; a table with fewer terms than loading's.
pub fn terms_sound(loading: &[u8], loaded: usize, table: &[u8], count: usize) -> bool
    requires holds_terms { HoldsTerms loading.now loaded }
    requires holds_terms_2 { HoldsTerms table.now count }
    requires loading_value { distinct_in same_term (terms_in loading.now) ≡ true }
    ensures { result ≡ terms_sound (terms_in loading.now) (terms_in table.now) }
{
    if !begins_with(loading, loaded, table, count) {
        return false;
    }
    if count == loaded {
        return true;
    }
    let hashes = hash_slots(table, count);
    slots_distinct(table, count, &hashes)
}
