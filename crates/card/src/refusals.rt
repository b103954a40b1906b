// Terms, schema and script: refusals 2 to 9.
ghost use Rattle.std.specs.Prelude.{◌≡◌, true, length, replicate, List, ℕ, ◌≤◌};
ghost use Rattle.definitions.specs.Limits.{term_limit, term_table_width, schema_width};
ghost use Rattle.definitions.specs.Terms.{Term, Schema, read_terms, read_schema};
ghost use Rattle.definitions.specs.Calls.{record_tests, script_tests, read_tests, check};
ghost use Rattle.std.proofs.Math.Option.{some};
ghost use Rattle.laws.specs.ReadAnswers.{is_some};
ghost use Rattle.records.specs.Listing.{listed_of};
ghost use Rattle.card.specs.Check.{Tells, HashesOf, ReadyOf, CodedOf, CardOf, nothing_more};

use crate::leasts::least_codes;
use definitions::{ENTRY_LIMIT, Refusal, SCHEMA_WIDTH, SCRIPT_LIMIT, TERM_LIMIT, VARIABLE_LIMIT};
use records::lists::{count_entries, entries_distinct, hashed_distinct};
use records::numbering::{add_properties, list_terms};
use records::schema::hash_entries;
use scope::scope::in_scope;
use typer::work_out;
use whole_script::script_ok;

// The number of terms and the reported type of each variable, and the hashes of the schema's URIs.
#[derive(Clone, Copy)]
pub struct Card {
    pub count: usize,
    pub types: [u8; VARIABLE_LIMIT],
    pub entries: [u16; ENTRY_LIMIT],
}

// How many terms loading numbers, and the hashes of the schema's URIs.
#[derive(Clone, Copy)]
pub struct Ready {
    pub count: usize,
    pub entries: [u16; ENTRY_LIMIT],
}

// Refusals 4 and 5 of a schema beside good terms, or the hashes of its URIs, where it has no more than it may.
// Ruled out: a bad schema let pass; 4 for a property that is listed twice.
pub fn read_records(schema: &[u8]) -> Result<[u16; ENTRY_LIMIT], Refusal>
    ensures { (terms : List ℕ) (n : ℕ) → Ok n ≡ listed_of (read_terms terms) → Tells (HashesOf schema.now) (record_tests terms schema.now) result }
{
    let Some(_) = count_entries(schema) else {
        return Err(Refusal::BadEntry);
    };
    if SCHEMA_WIDTH < schema.len() {
        if entries_distinct(schema) {
            return Ok([0; ENTRY_LIMIT]);
        }
        return Err(Refusal::PropertyTwice);
    }
    let entries = hash_entries(schema);
    if !hashed_distinct(schema, &entries) {
        return Err(Refusal::PropertyTwice);
    }
    Ok(entries)
}

// Refusals 6 and 7 of a good schema and a script, where so many terms are numbered.
// Ruled out: scope looked at in a script that is too long; a script of 2,049 bytes let pass.
pub fn test_script(terms: usize, schema: &[u8], script: &[u8]) -> Result<(), Refusal>
    requires { is_some (read_schema schema.now) ≡ true }
    ensures { (ts : List Term) (S : Schema) → length ts ≡ terms → terms ≤ term_limit → read_schema schema.now ≡ some S
        → Tells nothing_more (script_tests ts S script.now) result }
{
    if SCHEMA_WIDTH < schema.len() {
        return Err(Refusal::BadScript);
    }
    if SCRIPT_LIMIT < script.len() {
        return Err(Refusal::BadScript);
    }
    if !script_ok(script, terms) {
        return Err(Refusal::BadScript);
    }
    if !in_scope(script, terms) {
        return Err(Refusal::OutOfScope);
    }
    Ok(())
}

// Refusals 2 to 7, or how many terms loading numbers, with these in a table of zeros.
// Ruled out: a script read before its terms are numbered; 513 terms accepted.
pub fn read_card(
    terms: &[u8],
    schema: &[u8],
    script: &[u8],
    table: &mut [u8],
) -> Result<Ready, Refusal>
    requires { table.old ≡ replicate term_table_width 0 }
    ensures { Tells (ReadyOf schema.now table.new) (read_tests terms.now schema.now script.now) result }
{
    let mut hashes = [0u16; TERM_LIMIT];
    let n = list_terms(terms, table, &mut hashes)?;
    let entries = read_records(schema)?;
    if TERM_LIMIT < n {
        return Err(Refusal::BadScript);
    }
    let Some(count) = add_properties(schema, table, n, &mut hashes) else {
        return Err(Refusal::BadScript);
    };
    test_script(count, schema, script)?;
    Ok(Ready { count, entries })
}

// Refusals 2 to 7, or how many terms loading numbers, with these in one working table and the codes of their least types in
// the other. Ruled out: the codes of the listed terms alone; a card that is refused handed on as ready.
pub fn ready_card(
    terms: &[u8],
    schema: &[u8],
    script: &[u8],
    table: &mut [u8],
    leasts: &mut [u8],
) -> Result<Ready, Refusal>
    requires table_value { table.old ≡ replicate term_table_width 0 }
    requires leasts_len { length leasts.old ≡ term_limit }
    ensures { Tells (CodedOf schema.now table.new leasts.new) (read_tests terms.now schema.now script.now) result }
{
    let ready = read_card(terms, schema, script, table)?;
    let entries = ready.entries;
    least_codes(table, 0, ready.count, schema, &entries, leasts);
    Ok(ready)
}

// Refusals 2 to 9, or the number of terms and the reported types, with the terms in one working table and the codes of
// their least types in the other. Ruled out: types told beside a refusal; 8 for a script that has several greatest typings.
pub fn check_card(
    terms: &[u8],
    schema: &[u8],
    script: &[u8],
    table: &mut [u8],
    leasts: &mut [u8],
) -> Result<Card, Refusal>
    requires table_value { table.old ≡ replicate term_table_width 0 }
    requires leasts_len { length leasts.old ≡ term_limit }
    ensures { Tells (CardOf schema.now table.new leasts.new) (check terms.now schema.now script.now) result }
{
    let ready = ready_card(terms, schema, script, table, leasts)?;
    let count = ready.count;
    let types = work_out(script, &leasts[..count])?;
    let entries = ready.entries;
    Ok(Card {
        count,
        types,
        entries,
    })
}
