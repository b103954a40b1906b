// Hashes of slots, 16 bits each: slots whose hashes differ are told apart without a look at their bytes.
ghost use Rattle.std.specs.Prelude.{◌≡◌, ◌==◌, ℕ, ◌+◌, ◌≤◌, ◌<◌, length, position};
ghost use Rattle.definitions.specs.Limits.{slot_width, term_limit, term_table_width};
ghost use Rattle.definitions.specs.Lists.{is_in};
ghost use Rattle.definitions.specs.Saved.{slot_term, terms_in};
ghost use Rattle.table.specs.Hashes.{hash_of, below, place_in, slot_at, FirstWith, Hashed};
ghost use Rattle.table.specs.Table.{HoldsTerms, GoodSlot, number_from};

use definitions::{SLOT_WIDTH, TERM_LIMIT};
use fields::numbers::{index, same_bytes, word_at};

// The whole words of a slot.
const HASHED_WORDS: usize = SLOT_WIDTH / 2;

// The hash of a slot: 16 bits of its words and its last byte. Ruled out: the first word alone; the words in another order.
pub fn hash_of(slot: &[u8]) -> u16
    requires { length slot.now ≡ slot_width }
    ensures { result ≡ hash_of slot.now }
{
    let mut sum = 0;
    for at in (0..2 * HASHED_WORDS).step_by(2) {
        sum += word_at(slot, at) * (at + 1);
    }
    let last = index(slot[2 * HASHED_WORDS]) * SLOT_WIDTH;
    let whole = sum + last;
    (whole % 65521) as u16
}

// Whether a number is in a list. All are looked at, so that the compiler takes many at once, as in `is_zero`, where that is measured.
// Ruled out: the last left out; the first alone compared.
pub fn is_in(list: &[u16], x: u16) -> bool
    ensures { result ≡ is_in x list.now }
{
    let mut seen = false;
    for &y in list {
        seen |= y == x;
    }
    seen
}

fn first_in(list: &[u16], x: u16) -> Option<usize>
    ensures { result ≡ position (λ y. y == x) list.now }
{
    list.iter().position(|&y| y == x)
}

// The place of a number in a list, by blocks of 128: a block is looked through one by one only where it has the number.
// Ruled out: the place within its block; the last block left out.
pub fn place_of(list: &[u16], x: u16) -> Option<usize>
    ensures { result ≡ below (length list.now) (place_in x list.now) }
{
    let mut at = 0;
    while at < list.len() {
        let end = at + (list.len() - at).min(128);
        let block = &list[at..end];
        if is_in(block, x) {
            let k = first_in(block, x)?;
            return Some(at + k);
        }
        at = end;
    }
    None
}

// The first number from one on that has a hash and passes a test. Only where hashes are the same is the test made.
// Ruled out: the place counted from where the search went on; the number after one that fails the test left out.
pub fn find<F: Fn(usize) -> bool>(
    hashes: &[u16],
    hash: u16,
    mut from: usize,
    test: F,
) -> Option<usize>
    requires from_bound { from ≤ length hashes.now }
    requires can_test { (i : ℕ) → i < length hashes.now → F.pre test i }
    ensures { FirstWith (λ i r. F.post test i r) hashes.now hash from result }
{
    while let Some(k) = place_of(&hashes[from..], hash) {
        let i = from + k;
        if test(i) {
            return Some(i);
        }
        from = i + 1;
    }
    None
}

// The hashes of a table's first slots. Ruled out: the hash of the slot beside it; the last slot left out.
pub fn hash_slots(table: &[u8], n: usize) -> [u16; TERM_LIMIT]
    requires table_len { length table.now ≡ term_table_width }
    requires n_le_term_limit { n ≤ term_limit }
    ensures { Hashed table.now n result }
{
    let mut hashes = [0u16; TERM_LIMIT];
    for i in 0..n {
        let at = i * SLOT_WIDTH;
        hashes[i] = hash_of(&table[at..at + SLOT_WIDTH]);
    }
    hashes
}

// The number of a slot's term among those from a number on. Ruled out: slots with the same hash taken for the same; the last slot left out.
pub fn find_slot(
    table: &[u8],
    n: usize,
    hashes: &[u16],
    slot: &[u8],
    hash: u16,
    from: usize,
) -> Option<usize>
    requires holds_terms { HoldsTerms table.now n }
    requires hashes_len { length hashes.now ≡ term_limit }
    requires hashed { Hashed table.now n hashes.now }
    requires good_slot { GoodSlot slot.now }
    requires hash_value { hash ≡ hash_of slot.now }
    requires from_le_n { from ≤ n }
    ensures { result ≡ below n (number_from from (slot_term slot.now) (terms_in table.now)) }
{
    find(&hashes[..n], hash, from, |i| {
        let at = i * SLOT_WIDTH;
        same_bytes(slot, &table[at..at + SLOT_WIDTH])
    })
}

// The number of a slot's term among those after it.
// Ruled out: the slot's own number; slots with the same hash taken for the same.
pub fn slot_again(table: &[u8], n: usize, hashes: &[u16], i: usize) -> Option<usize>
    requires holds_terms { HoldsTerms table.now n }
    requires hashes_len { length hashes.now ≡ term_limit }
    requires hashed { Hashed table.now n hashes.now }
    requires i_lt_n { i < n }
    ensures { result ≡ below n (number_from (i + 1) (slot_term (slot_at table.now i)) (terms_in table.now)) }
{
    let at = i * SLOT_WIDTH;
    let end = at + SLOT_WIDTH;
    find_slot(table, n, hashes, &table[at..end], hashes[i], i + 1)
}
