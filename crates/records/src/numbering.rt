// Terms that join a term table, and the table that loading numbers.
ghost use Rattle.std.specs.Prelude.{Some};
ghost use Rattle.std.specs.Prelude.{◌≡◌, true, ℕ, ◌<◌, ◌≤◌, length, replicate};
ghost use Rattle.std.proofs.Math.Option.{some};
ghost use Rattle.definitions.specs.Limits.{term_limit, term_table_width};
ghost use Rattle.definitions.specs.Terms.{Term, same_term, read_term, read_terms, read_schema};
ghost use Rattle.definitions.specs.Machine.{with_properties};
ghost use Rattle.definitions.specs.Saved.{slot_term, terms_in};
ghost use Rattle.laws.specs.ReadAnswers.{is_some, next_of};
ghost use Rattle.fields.specs.Answers.{count_of, distinct_in};
ghost use Rattle.table.specs.Hashes.{Hashed};
ghost use Rattle.records.specs.Listing.{listed_of, Written, Lists};
ghost use Rattle.table.specs.Table.{HoldsTerms, GoodSlot, number_in, list_of, with_term, added_of, table_of};

use crate::Joined;
use crate::lists::records_distinct;
use definitions::{ENTRY_WIDTH, Refusal, TERM_LIMIT, TEXT_WIDTH};
use record_reading::read_term;
use table::slots::{find_term, put_term, slot_of, slots_distinct};

// A slot's term joins a table of n terms, where it is not there.
// Ruled out: a second number for a term that is there; a refusal where a full table has it.
pub fn add_term(table: &mut [u8], n: usize, hashes: &mut [u16], slot: &[u8]) -> Joined
    requires holds_terms { HoldsTerms table.old n }
    requires hashes_len { length hashes.old ≡ term_limit }
    requires hashed { Hashed table.old n hashes.old }
    requires good_slot { GoodSlot slot.now }
    ensures number_value { result.number ≡ number_in (slot_term slot.now) (terms_in table.old) }
    ensures terms_value { result.terms ≡ length (with_term (slot_term slot.now) (terms_in table.old)) }
    ensures table_after { table.new ≡ table_of (with_term (slot_term slot.now) (terms_in table.old)) }
    ensures hashed_2 { result.terms ≤ term_limit → Hashed table.new result.terms hashes.new }
{
    if let Some(found) = find_term(table, n, hashes, slot) {
        let number = found as u16;
        return Joined { number, terms: n };
    }
    let number = n as u16;
    let terms = n + 1;
    if TERM_LIMIT <= n {
        return Joined { number, terms };
    }
    put_term(table, n, hashes, slot);
    Joined { number, terms }
}

// Writes the term record between two offsets into slot n of a table, with its hash, where the table has room.
fn write_term(terms: &[u8], at: usize, end: usize, table: &mut [u8], n: usize, hashes: &mut [u16])
    requires end_value { Some end ≡ next_of (read_term terms.now at) }
    requires table_len { length table.old ≡ term_table_width }
    requires hashes_len { length hashes.old ≡ term_limit }
    requires hashed { n < term_limit → Hashed table.old n hashes.old }
    ensures { (t : Term) → read_term terms.now at ≡ some (t, end) → n < term_limit → Written table.old n t table.new hashes.new }
{
    if TERM_LIMIT <= n {
        return;
    }
    let body = at + 1;
    let slot = slot_of(terms[at], &terms[body..end]);
    put_term(table, n, hashes, &slot);
}

// How many term records there are; those that a table of zeros has room for are written there, with their hashes.
fn write_terms(terms: &[u8], table: &mut [u8], hashes: &mut [u16]) -> Option<usize>
    requires table_value { table.old ≡ replicate term_table_width 0 }
    requires hashes_len { length hashes.old ≡ term_limit }
    ensures value { result ≡ count_of (read_terms terms.now) }
    ensures by_index { (n : ℕ) → result ≡ Some n → n ≤ term_limit → Lists terms.now table.new hashes.new n }
{
    let mut n = 0;
    let mut at = 0;
    while at < terms.len() {
        let end = read_term(terms, at)?;
        write_term(terms, at, end, table, n, hashes);
        at = end;
        n += 1;
    }
    Some(n)
}

// Whether listed terms are all different: by their slots, where a table has room for them.
fn different(terms: &[u8], n: usize, table: &[u8], hashes: &[u16]) -> bool
    requires n_value { Some n ≡ count_of (read_terms terms.now) }
    requires hashes_len { length hashes.now ≡ term_limit }
    requires lists { n ≤ term_limit → Lists terms.now table.now hashes.now n }
    ensures { result ≡ distinct_in same_term (read_terms terms.now) }
{
    if TERM_LIMIT < n {
        return records_distinct(terms);
    }
    slots_distinct(table, n, hashes)
}

// Refusals 2 and 3 of listed terms, or how many there are. They are left in a table of zeros with
// their hashes, where it has room for them. Ruled out: a term twice told before a bad record; the last term left out of the table.
pub fn list_terms(terms: &[u8], table: &mut [u8], hashes: &mut [u16]) -> Result<usize, Refusal>
    requires table_value { table.old ≡ replicate term_table_width 0 }
    requires hashes_len { length hashes.old ≡ term_limit }
    ensures value { result ≡ listed_of (read_terms terms.now) }
    ensures lists { (n : ℕ) → result ≡ Ok n → n ≤ term_limit → Lists terms.now table.new hashes.new n }
{
    let Some(count) = write_terms(terms, table, hashes) else {
        return Err(Refusal::BadTerm);
    };
    if !different(terms, count, table, hashes) {
        return Err(Refusal::TermTwice);
    }
    Ok(count)
}

// Schema URIs join a table of n terms, those that are not there, in schema order.
// Ruled out: another order; a URI written twice.
pub fn add_properties(
    schema: &[u8],
    table: &mut [u8],
    n: usize,
    hashes: &mut [u16],
) -> Option<usize>
    requires schema_value { is_some (read_schema schema.now) ≡ true }
    requires holds_terms { HoldsTerms table.old n }
    requires hashes_len { length hashes.old ≡ term_limit }
    requires hashed { Hashed table.old n hashes.old }
    ensures { (result ≡ added_of (with_properties (list_of (read_schema schema.now)) (list_of (terms_in table.old))))
        × (table.new ≡ table_of (with_properties (list_of (read_schema schema.now)) (list_of (terms_in table.old))))
        × ((k : ℕ) → result ≡ Some k → Hashed table.new k hashes.new) }
{
    let mut used = n;
    let mut at = 0;
    while at < schema.len() {
        let field = at + 1;
        let end = field + TEXT_WIDTH;
        let slot = slot_of(0x11, &schema[field..end]);
        let joined = add_term(table, used, hashes, &slot);
        used = joined.terms;
        if TERM_LIMIT < used {
            return None;
        }
        at += ENTRY_WIDTH;
    }
    Some(used)
}
