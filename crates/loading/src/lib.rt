// The load call: refusals 1, 21 and 2 to 9, or both tables and the saved run.
#![tactic(auto)]

ghost use Rattle.std.specs.Prelude.{◌≡◌};
ghost use Rattle.definitions.specs.Calls as Calls;
ghost use Rattle.lengths.specs.Lent.{lent_of};
ghost use Rattle.loading.specs.Loaded.{handed_back};

use alphabet::is_alphabet;
use card::refusals::check_card;
use definitions::{
    Loaded, QUAD_TABLE_WIDTH, Refusal, TERM_LIMIT, TERM_TABLE_WIDTH, VARIABLE_LIMIT,
};
use lengths::tables_fit;
use store::bare::bare_run;

// What a load hands back: of a refused one a bare saved run; else the root alone on the stack, an item at offset 0.
fn handed_back(types: Result<[u8; VARIABLE_LIMIT], Refusal>) -> Loaded
    ensures { result ≡ handed_back types }
{
    match types {
        Ok(reported) => Loaded {
            answer: Ok(()),
            saved: bare_run(1, reported),
        },
        Err(refusal) => Loaded {
            answer: Err(refusal),
            saved: bare_run(0, [0; VARIABLE_LIMIT]),
        },
    }
}

// Writes both tables and gives the reported types, or a refusal that leaves the tables as they were.
fn load_tables(
    ranks: &[u8],
    terms: &[u8],
    schema: &[u8],
    script: &[u8],
    table: &mut [u8],
    store: &mut [u8],
) -> Result<[u8; VARIABLE_LIMIT], Refusal>
    ensures { (handed_back result ≡ (Calls.load (lent_of ranks.now terms.now schema.now script.now table.old store.old)).returned)
        × (table.new ≡ (Calls.load (lent_of ranks.now terms.now schema.now script.now table.old store.old)).term_table)
        × (store.new ≡ (Calls.load (lent_of ranks.now terms.now schema.now script.now table.old store.old)).quad_table) }
{
    if !tables_fit(ranks, table, store) {
        return Err(Refusal::WrongLength);
    }
    if !is_alphabet(ranks) {
        return Err(Refusal::BadRanks);
    }
    let mut work = [0u8; TERM_TABLE_WIDTH];
    let mut leasts = [0u8; TERM_LIMIT];
    let card = check_card(terms, schema, script, &mut work, &mut leasts)?;
    let empty = [0u8; QUAD_TABLE_WIDTH];
    table.copy_from_slice(&work);
    store.copy_from_slice(&empty);
    Ok(card.types)
}

// Loads terms, schema and script: term table, quad table and saved run, or a refusal that leaves both tables as they were.
// Ruled out: a table cleared before a refusal; a quad table of another length accepted.
pub fn load(
    ranks: &[u8],
    terms: &[u8],
    schema: &[u8],
    script: &[u8],
    table: &mut [u8],
    store: &mut [u8],
) -> Loaded
    ensures { (result ≡ (Calls.load (lent_of ranks.now terms.now schema.now script.now table.old store.old)).returned)
        × (table.new ≡ (Calls.load (lent_of ranks.now terms.now schema.now script.now table.old store.old)).term_table)
        × (store.new ≡ (Calls.load (lent_of ranks.now terms.now schema.now script.now table.old store.old)).quad_table) }
{
    handed_back(load_tables(ranks, terms, schema, script, table, store))
}
