// What a call on a saved run begins with: refusals 1, 21 and 10, and what is found where none comes.
#![tactic(auto)]

ghost use Rattle.std.specs.Prelude.{◌≡◌, List, ℕ, length};
ghost use Rattle.definitions.specs.Limits.{term_limit, quad_limit, term_table_width, quad_table_width};
ghost use Rattle.definitions.specs.Saved.{terms_in};
ghost use Rattle.definitions.specs.Result.{given};
ghost use Rattle.definitions.specs.declared.Refusal.TheVariants.{Unsound};
ghost use Rattle.definitions.specs.Calls.{sound_in, entry_tests};
ghost use Rattle.fields.specs.Answers.{count_of};
ghost use Rattle.table.specs.Table.{HoldsTerms};
ghost use Rattle.lengths.specs.Lent.{lent_of};
ghost use Rattle.card.specs.Check.{Tells};
ghost use Rattle.entry.specs.Entry.{Found};

use alphabet::is_alphabet;
use card::leasts::least_codes;
use card::refusals::check_card;
use control::control_sound;
use definitions::{ENTRY_LIMIT, Refusal, SLOT_WIDTH, SavedRun, TERM_TABLE_WIDTH};
use fields::numbers::same_bytes;
use lengths::tables_fit;
use soundness::tables::store_sound;
use soundness::terms::terms_sound;
use table::slots::used_terms;

// How many terms loading numbers, how many are in use, and the hashes of the schema's URIs.
#[derive(Clone, Copy)]
pub struct Entered {
    pub loaded: usize,
    pub count: usize,
    pub entries: [u16; ENTRY_LIMIT],
}

// How many terms a table holds. Where it begins as that of loading, the slots of loading's terms are not read again.
fn counted(loading: &[u8], loaded: usize, table: &[u8]) -> Option<usize>
    requires holds_terms { HoldsTerms loading.now loaded }
    requires table_len { length table.now ≡ term_table_width }
    ensures { result ≡ count_of (terms_in table.now) }
{
    let end = loaded * SLOT_WIDTH;
    if same_bytes(&loading[..end], &table[..end]) {
        return used_terms(table, loaded);
    }
    used_terms(table, 0)
}

// Refusal 10 of tables that have their lengths. The codes of least types go on from those of loading's terms, where the table begins with these.
// Ruled out: a saved run of other types than those worked out; codes of least types that begin elsewhere.
pub fn sound(
    terms: &[u8],
    schema: &[u8],
    script: &[u8],
    table: &[u8],
    store: &[u8],
    saved: SavedRun,
    keys: &mut [u64],
    leasts: &mut [u8],
) -> Result<Entered, Refusal>
    requires table_len { length table.now ≡ term_table_width }
    requires store_len { length store.now ≡ quad_table_width }
    requires keys_len { length keys.old ≡ quad_limit }
    requires leasts_len { length leasts.old ≡ term_limit }
    ensures { (ranks : List ℕ) → Tells (Found (lent_of ranks terms.now schema.now script.now table.now store.now) saved keys.new leasts.new)
        (given Unsound (sound_in (lent_of ranks terms.now schema.now script.now table.now store.now) saved)) result }
{
    let mut loading = [0u8; TERM_TABLE_WIDTH];
    let Ok(card) = check_card(terms, schema, script, &mut loading, leasts) else {
        return Err(Refusal::Unsound);
    };
    let loaded = card.count;
    let Some(count) = counted(&loading, loaded, table) else {
        return Err(Refusal::Unsound);
    };
    let types = card.types;
    let control = saved.control;
    let reported = control.types;
    if !check::same(&reported, &types) {
        return Err(Refusal::Unsound);
    }
    if !terms_sound(&loading, loaded, table, count) {
        return Err(Refusal::Unsound);
    }
    let entries = card.entries;
    least_codes(table, loaded, count, schema, &entries, leasts);
    let kept = saved.store;
    if !store_sound(store, kept, leasts, count, keys) {
        return Err(Refusal::Unsound);
    }
    if !control_sound(script, loaded, control, count, leasts) {
        return Err(Refusal::Unsound);
    }
    Ok(Entered {
        loaded,
        count,
        entries,
    })
}

// Refusals 1, 21 and 10. Where none comes, `keys` has those of the quads, and `leasts` the codes of the terms' least types.
// Ruled out: a saved run of other types than those worked out; a table whose first terms are others.
pub fn enter(
    ranks: &[u8],
    terms: &[u8],
    schema: &[u8],
    script: &[u8],
    table: &[u8],
    store: &[u8],
    saved: SavedRun,
    keys: &mut [u64],
    leasts: &mut [u8],
) -> Result<Entered, Refusal>
    requires keys_len { length keys.old ≡ quad_limit }
    requires leasts_len { length leasts.old ≡ term_limit }
    ensures { Tells (Found (lent_of ranks.now terms.now schema.now script.now table.now store.now) saved keys.new leasts.new)
        (entry_tests (lent_of ranks.now terms.now schema.now script.now table.now store.now) saved) result }
{
    if !tables_fit(ranks, table, store) {
        return Err(Refusal::WrongLength);
    }
    if !is_alphabet(ranks) {
        return Err(Refusal::BadRanks);
    }
    sound(terms, schema, script, table, store, saved, keys, leasts)
}
