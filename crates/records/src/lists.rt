// Records one after the other: how many there are, and whether one is there twice.
ghost use Rattle.std.specs.Prelude.{◌≡◌, true, Some, ℕ, ◌<◌, ◌≤◌, Bool, List, length};
ghost use Rattle.std.proofs.Math.Option.{some};
ghost use Rattle.definitions.specs.Bytes.{Got};
ghost use Rattle.definitions.specs.Terms.{Term, Entry, Triple, same_term, same_property, read_term, read_entry, read_triple, read_terms, read_schema, read_page};
ghost use Rattle.laws.specs.Records.{records_at};
ghost use Rattle.laws.specs.ReadAnswers.{is_some, next_of};
ghost use Rattle.laws.proofs.RecordsAt.{term-forward, entry-forward, triple-forward};
ghost use Rattle.fields.specs.Answers.{count_of, same_in, again_in, distinct_in};
ghost use Rattle.table.specs.Hashes.{HashedEntries};

use definitions::{ENTRY_WIDTH, TEXT_WIDTH};
use fields::numbers::same_bytes;
use record_reading::{read_entry, read_triple};
use table::hashes::is_in;
use term_bodies::bodies::body_width;

// A kind of record, by what is read at an offset.
trait Record {
    ghost Value: { Type 0 };

    ghost read: { List ℕ → ℕ → Got Value };

    // The offset after one.
    fn next(s: &[u8], at: usize) -> Option<usize>
        ensures { result ≡ next_of (read s.now at) };

    ghost forward: { (s : List ℕ) (at : ℕ) (a : Value) (n : ℕ) → read s at ≡ some (a, n) → (at < n) × (n ≤ length s) };
}

// A kind of record of which two may be the same. It has its own `read`: the type of `alike` can't name a supertrait's `Value` (c).
trait Comparable {
    ghost Value: { Type 0 };

    ghost read: { List ℕ → ℕ → Got Value };

    ghost alike: { Value → Value → Bool };

    // Where a good one ends.
    fn end(s: &[u8], at: usize) -> usize
        requires { is_some (read s.now at) ≡ true }
        ensures { Some result ≡ next_of (read s.now at) };

    // Whether two good ones are the same.
    fn same(s: &[u8], a: usize, b: usize) -> bool
        requires a_value { is_some (read s.now a) ≡ true }
        requires b_value { is_some (read s.now b) ≡ true }
        ensures { result ≡ same_in alike (read s.now a) (read s.now b) };

    ghost forward: { (s : List ℕ) (at : ℕ) (a : Value) (n : ℕ) → read s at ≡ some (a, n) → (at < n) × (n ≤ length s) };
}

// Where a good term record ends. Ruled out: the end of its body's text; the width of another kind.
pub fn term_end(s: &[u8], at: usize) -> usize
    requires { is_some (read_term s.now at) ≡ true }
    ensures { Some result ≡ next_of (read_term s.now at) }
{
    let body = at + 1;
    body + body_width(s[at])
}

// Term records.
struct TermRecord;

impl Comparable for TermRecord {
    ghost Value = { Term };

    ghost read = { read_term };

    ghost alike = { same_term };

    ghost forward = { term-forward };

    fn end(s: &[u8], at: usize) -> usize {
        term_end(s, at)
    }

    fn same(s: &[u8], a: usize, b: usize) -> bool {
        let a_end = term_end(s, a);
        let b_end = term_end(s, b);
        same_bytes(&s[a..a_end], &s[b..b_end])
    }
}

// Schema records: two of one property are the same.
struct EntryRecord;

impl Record for EntryRecord {
    ghost Value = { Entry };

    ghost read = { read_entry };

    ghost forward = { entry-forward };

    fn next(s: &[u8], at: usize) -> Option<usize> {
        read_entry(s, at)
    }
}

impl Comparable for EntryRecord {
    ghost Value = { Entry };

    ghost read = { read_entry };

    ghost alike = { same_property };

    ghost forward = { entry-forward };

    fn end(_s: &[u8], at: usize) -> usize {
        at + ENTRY_WIDTH
    }

    fn same(s: &[u8], a: usize, b: usize) -> bool {
        let a_field = a + 1;
        let b_field = b + 1;
        same_bytes(
            &s[a_field..a_field + TEXT_WIDTH],
            &s[b_field..b_field + TEXT_WIDTH],
        )
    }
}

// Page records.
struct TripleRecord;

impl Record for TripleRecord {
    ghost Value = { Triple };

    ghost read = { read_triple };

    ghost forward = { triple-forward };

    fn next(s: &[u8], at: usize) -> Option<usize> {
        read_triple(s, at)
    }
}

// How many records there are. Ruled out: the count up to the first bad record; one more for bytes left over.
fn count<R: Record>(s: &[u8]) -> Option<usize>
    ensures { result ≡ count_of (records_at R.read s.now 0) }
{
    let mut n = 0;
    let mut at = 0;
    while at < s.len() {
        at = R::next(s, at)?;
        n += 1;
    }
    Some(n)
}

pub fn count_entries(s: &[u8]) -> Option<usize>
    ensures { result ≡ count_of (read_schema s.now) }
{
    count::<EntryRecord>(s)
}

pub fn count_triples(s: &[u8]) -> Option<usize>
    ensures { result ≡ count_of (read_page s.now) }
{
    count::<TripleRecord>(s)
}

// Whether a record is listed again from an offset on.
fn again<R: Comparable>(s: &[u8], at: usize, from: usize) -> bool
    requires at_value { is_some (R.read s.now at) ≡ true }
    requires from_value { is_some (records_at R.read s.now from) ≡ true }
    ensures { result ≡ again_in R.alike (R.read s.now at) (records_at R.read s.now from) }
{
    let mut i = from;
    while i < s.len() {
        if R::same(s, at, i) {
            return true;
        }
        i = R::end(s, i);
    }
    false
}

// Whether good records are all different, record by record. Ruled out: neighbours alone compared; a record compared with itself.
fn distinct<R: Comparable>(s: &[u8]) -> bool
    requires { is_some (records_at R.read s.now 0) ≡ true }
    ensures { result ≡ distinct_in R.alike (records_at R.read s.now 0) }
{
    let mut at = 0;
    while at < s.len() {
        let next = R::end(s, at);
        if again::<R>(s, at, next) {
            return false;
        }
        at = next;
    }
    true
}

// Ruled out: neighbours alone compared; integer 3 and decimal 3.0 taken for one term.
pub fn records_distinct(s: &[u8]) -> bool
    requires { is_some (read_terms s.now) ≡ true }
    ensures { result ≡ distinct_in same_term (read_terms s.now) }
{
    distinct::<TermRecord>(s)
}

// Ruled out: a property twice with two datatypes let pass; neighbours alone compared.
pub fn entries_distinct(s: &[u8]) -> bool
    requires { is_some (read_schema s.now) ≡ true }
    ensures { result ≡ distinct_in same_property (read_schema s.now) }
{
    distinct::<EntryRecord>(s)
}

// The same of a schema that has no more than it may: records are compared only where their URIs' hashes are the same.
// Ruled out: URIs with the same hash taken for the same; the last record left out.
pub fn hashed_distinct(s: &[u8], hashes: &[u16]) -> bool
    requires s_value { is_some (read_schema s.now) ≡ true }
    requires hashed_entries { HashedEntries s.now hashes.now }
    ensures { result ≡ distinct_in same_property (read_schema s.now) }
{
    let entries = s.len() / ENTRY_WIDTH;
    for i in 0..entries {
        let at = i * ENTRY_WIDTH;
        if is_in(&hashes[i + 1..entries], hashes[i])
            && again::<EntryRecord>(s, at, at + ENTRY_WIDTH)
        {
            return false;
        }
    }
    true
}
