// The term table: a record and zeros in each slot, zeros after the last.
ghost use Rattle.std.specs.Prelude.{◌≡◌, ◌∷◌, ◌+◌, ◌<◌, length};
ghost use Rattle.definitions.specs.Limits.{slot_width, term_limit, term_table_width};
ghost use Rattle.definitions.specs.Bytes.{filled};
ghost use Rattle.definitions.specs.Terms.{same_term};
ghost use Rattle.definitions.specs.Saved.{slot_term, terms_in};
ghost use Rattle.laws.specs.ReadAnswers.{is_some};
ghost use Rattle.fields.specs.Answers.{count_of, distinct_in};
ghost use Rattle.table.specs.Hashes.{below, Hashed};
ghost use Rattle.table.specs.Table.{HoldsTerms, Begun, GoodSlot, number_in, slot_set};

use crate::hashes::{find_slot, hash_of, slot_again};
use definitions::{SLOT_WIDTH, TERM_LIMIT};
use fields::numbers::{is_zero, number_index};
use record_reading::read_term;

// Whether a slot holds a term. Ruled out: bytes after the record that are not zero; a slot of zeros.
pub fn slot_ok(slot: &[u8]) -> bool
    ensures { result ≡ is_some (slot_term slot.now) }
{
    match read_term(slot, 0) {
        Some(end) => is_zero(&slot[end..]),
        None => false,
    }
}

// How many terms a table holds; its first slots, so many, are known to hold some.
// Ruled out: a count past a slot of zeros; rubbish after the last let pass.
pub fn used_terms(table: &[u8], first: usize) -> Option<usize>
    requires { Begun table.now first }
    ensures { result ≡ count_of (terms_in table.now) }
{
    for n in first..TERM_LIMIT {
        let at = n * SLOT_WIDTH;
        if table[at] == 0 {
            return is_zero(&table[at..]).then_some(n);
        }
        if !slot_ok(&table[at..at + SLOT_WIDTH]) {
            return None;
        }
    }
    Some(TERM_LIMIT)
}

// The number of a slot's term, where it is there.
// Ruled out: 0 for a term that is not there; the number of one like it.
pub fn find_term(table: &[u8], n: usize, hashes: &[u16], slot: &[u8]) -> Option<usize>
    requires holds_terms { HoldsTerms table.now n }
    requires hashes_len { length hashes.now ≡ term_limit }
    requires hashed { Hashed table.now n hashes.now }
    requires good_slot { GoodSlot slot.now }
    ensures { result ≡ below n (number_in (slot_term slot.now) (terms_in table.now)) }
{
    find_slot(table, n, hashes, slot, hash_of(slot), 0)
}

// How many places there are for hashes: a prime, since the hashes of texts that are alike often differ by multiples of 256.
const SEEN_PLACES: usize = 2039;

// Whether the terms of a table are all different. A slot is looked for among those after it only where its hash has the place of one of theirs.
// Ruled out: neighbours alone compared; a slot compared with itself.
pub fn slots_distinct(table: &[u8], n: usize, hashes: &[u16]) -> bool
    requires holds_terms { HoldsTerms table.now n }
    requires hashes_len { length hashes.now ≡ term_limit }
    requires hashed { Hashed table.now n hashes.now }
    ensures { result ≡ distinct_in same_term (terms_in table.now) }
{
    let mut seen = [false; SEEN_PLACES];
    for i in (0..n).rev() {
        let place = number_index(hashes[i]) % SEEN_PLACES;
        if seen[place] && slot_again(table, n, hashes, i).is_some() {
            return false;
        }
        seen[place] = true;
    }
    true
}

// The slot of a record. Ruled out: no zeros after it; no kind before it.
pub fn slot_of(kind: u8, body: &[u8]) -> [u8; SLOT_WIDTH]
    requires { length body.now < slot_width }
    ensures { result ≡ filled slot_width (kind ∷ body.now) }
{
    let mut slot = [0u8; SLOT_WIDTH];
    slot[0] = kind;
    let end = 1 + body.len();
    slot[1..end].copy_from_slice(body);
    slot
}

// Writes a slot. Ruled out: the slot beside it changed; its last byte left as it was.
pub fn put_slot(table: &mut [u8], n: usize, slot: &[u8])
    requires table_len { length table.old ≡ term_table_width }
    requires n_lt_term_limit { n < term_limit }
    requires slot_len { length slot.now ≡ slot_width }
    ensures { table.new ≡ slot_set table.old n slot.now }
{
    let at = n * SLOT_WIDTH;
    let end = at + SLOT_WIDTH;
    table[at..end].copy_from_slice(slot);
}

// Writes a slot and its hash. Ruled out: another slot's hash changed; the hash of the slot that was there.
pub fn put_term(table: &mut [u8], n: usize, hashes: &mut [u16], slot: &[u8])
    requires table_len { length table.old ≡ term_table_width }
    requires n_lt_term_limit { n < term_limit }
    requires hashes_len { length hashes.old ≡ term_limit }
    requires hashed { Hashed table.old n hashes.old }
    requires slot_len { length slot.now ≡ slot_width }
    ensures { (table.new ≡ slot_set table.old n slot.now) × Hashed table.new (n + 1) hashes.new }
{
    put_slot(table, n, slot);
    hashes[n] = hash_of(slot);
}
