// A page's records: their new terms join the table, and their quads' keys are gathered in the order in which they come.
// A count of terms above its limit says that the table had no room for all.
ghost use Rattle.std.specs.Prelude.{◌≡◌, List, ◌+◌, ◌≤◌, ◌<◌, length};
ghost use Rattle.std.proofs.Math.Option.{some};
ghost use Rattle.definitions.specs.Limits.{page_limit};
ghost use Rattle.pages.specs.Room.{record_limit};
ghost use Rattle.definitions.specs.Terms.{Term, Schema, Triple, read_schema, read_page};
ghost use Rattle.definitions.specs.Evaluate.{Quad};
ghost use Rattle.definitions.specs.Machine.{Taken, take_one, take_all};
ghost use Rattle.laws.specs.Records.{TripleAt};
ghost use Rattle.laws.specs.Quads.{Small};
ghost use Rattle.keys.specs.Keys.{key_of};
ghost use Rattle.table.specs.Table.{HeldTerms};
ghost use Rattle.quad_table.specs.Quads.{quad};
ghost use Rattle.pages.specs.Page.{Held, HeldHashes, BodyIs, Says, Joins, RecordAt, Reads, Numbering, HeldTaken, HeldBoth, Took, PageReads};

use crate::{Counts, Numbers};
use definitions::{OBJECT_OFFSET, PROPERTY_OFFSET, TERM_LIMIT};
use keys::pack;
use page_reader::next_record;
use page_typing::well_typed;
use records::Joined;
use records::numbering::add_term;
use table::hashes::hash_slots;
use table::slots::slot_of;

// The number of a body's term in a table of n terms. A new term joins at the end, where there is room.
fn number_body(kind: u8, body: &[u8], table: &mut [u8], n: usize, hashes: &mut [u16]) -> Joined
    requires held { Held table.old n }
    requires held_hashes { HeldHashes table.old n hashes.old }
    requires says { Says kind body.now }
    ensures joins { (ts : List Term) (t : Term) → HeldTerms table.old n ts → BodyIs kind body.now t → Joins ts t result table.new }
    ensures held_hashes_2 { HeldHashes table.new result.terms hashes.new }
{
    let slot = slot_of(kind, body);
    add_term(table, n, hashes, &slot)
}

// The numbers of a record's terms, subject before object.
fn number_triple(
    page: &[u8],
    at: usize,
    next: usize,
    table: &mut [u8],
    n: usize,
    hashes: &mut [u16],
) -> Numbers
    requires record_at { RecordAt page.now at next }
    requires held { Held table.old n }
    requires held_hashes { HeldHashes table.old n hashes.old }
    ensures numbering { (ts : List Term) (x : Triple) → HeldTerms table.old n ts → TripleAt page.now at x next → Numbering ts x result table.new }
    ensures held_hashes_2 { HeldHashes table.new result.terms hashes.new }
{
    let from = at + 1;
    let middle = at + PROPERTY_OFFSET;
    let last = at + OBJECT_OFFSET;
    let kind = page[at] - 0x70;
    let subject = number_body(0x11, &page[from..middle], table, n, hashes);
    let one = subject.terms;
    if TERM_LIMIT < one {
        return Numbers {
            subject: 0,
            property: 0,
            object: 0,
            terms: one,
        };
    }
    let property = number_body(0x11, &page[middle..last], table, one, hashes);
    let two = property.terms;
    if TERM_LIMIT < two {
        return Numbers {
            subject: 0,
            property: 0,
            object: 0,
            terms: two,
        };
    }
    let object = number_body(kind, &page[last..next], table, two, hashes);
    Numbers {
        subject: subject.number,
        property: property.number,
        object: object.number,
        terms: object.terms,
    }
}

// The key of a record's quad.
fn key_of(graph: u16, numbers: Numbers) -> u64
    ensures value { result ≡ key_of (quad graph numbers.subject numbers.property numbers.object) }
    ensures small { Small (quad graph numbers.subject numbers.property numbers.object) }
{
    let subject = numbers.subject;
    let property = numbers.property;
    let object = numbers.object;
    pack(graph as u64, subject as u64, property as u64, object as u64)
}

// Takes in a record, or skips it: its quad's key comes after those that there are.
fn take_record(
    page: &[u8],
    at: usize,
    next: usize,
    schema: &[u8],
    entries: &[u16],
    graph: u16,
    terms: &mut [u8],
    hashes: &mut [u16],
    keys: &mut [u64],
    counts: Counts,
) -> Counts
    requires record_at { RecordAt page.now at next }
    requires reads { Reads schema.now entries.now }
    requires held_both { HeldBoth terms.old keys.old counts }
    requires held_hashes { HeldHashes terms.old counts.terms hashes.old }
    requires skipped_le_at { counts.skipped ≤ at }
    requires at_le_page_limit { at ≤ page_limit }
    requires keys_lt_record_limit { (counts.keys < record_limit) × (length keys.old ≡ record_limit) }
    ensures took { (S : Schema) (x : Triple) (others : List Quad) (k : Taken) → read_schema schema.now ≡ some S → TripleAt page.now at x next
        → HeldTaken terms.old keys.old others counts k → Took terms.new keys.new others result (take_one S graph x k) }
    ensures held_hashes_2 { HeldHashes terms.new result.terms hashes.new }
    ensures skipped_bound { result.skipped ≤ counts.skipped + 1 }
    ensures keys_bound { result.keys ≤ counts.keys + 1 }
{
    let n = counts.terms;
    let m = counts.keys;
    let skipped = counts.skipped;
    if !well_typed(page, at, next, schema, entries) {
        let more = skipped + 1;
        return Counts {
            terms: n,
            keys: m,
            skipped: more,
        };
    }
    let numbers = number_triple(page, at, next, terms, n, hashes);
    let count = numbers.terms;
    if TERM_LIMIT < count {
        return Counts {
            terms: count,
            keys: m,
            skipped,
        };
    }
    let key = key_of(graph, numbers);
    keys[m] = key;
    let gathered = m + 1;
    Counts {
        terms: count,
        keys: gathered,
        skipped,
    }
}

// Takes in the records of a page, one by one, as long as there is room for their terms.
fn take_records(
    page: &[u8],
    schema: &[u8],
    entries: &[u16],
    graph: u16,
    terms: &mut [u8],
    hashes: &mut [u16],
    keys: &mut [u64],
    start: Counts,
) -> Counts
    requires page_reads { PageReads page.now }
    requires page_len_bound { length page.now ≤ page_limit }
    requires reads { Reads schema.now entries.now }
    requires held_both { HeldBoth terms.old keys.old start }
    requires held_hashes { HeldHashes terms.old start.terms hashes.old }
    requires skipped_value { (start.skipped ≡ 0) × (start.keys ≡ 0) × (length keys.old ≡ record_limit) }
    ensures took { (S : Schema) (rs : List Triple) (others : List Quad) (k : Taken) → read_schema schema.now ≡ some S → read_page page.now ≡ some rs
        → HeldTaken terms.old keys.old others start k → Took terms.new keys.new others result (take_all S graph rs k) }
    ensures keys_le_record_limit { result.keys ≤ record_limit }
{
    let mut counts = start;
    let mut at = 0;
    while at < page.len() {
        let next = next_record(page, at);
        counts = take_record(
            page, at, next, schema, entries, graph, terms, hashes, keys, counts,
        );
        if TERM_LIMIT < counts.terms {
            return counts;
        }
        at = next;
    }
    counts
}

// Takes a page's records in: their terms into the table, the keys of their quads one after the other. Terms are looked up by hashes, made once for the page.
// Ruled out: a page of which only the first record is taken; skipped records that add terms.
pub fn take_triples(
    page: &[u8],
    schema: &[u8],
    entries: &[u16],
    graph: u16,
    terms: &mut [u8],
    keys: &mut [u64],
    start: Counts,
) -> Counts
    requires page_reads { PageReads page.now }
    requires page_len_bound { length page.now ≤ page_limit }
    requires reads { Reads schema.now entries.now }
    requires held_both { HeldBoth terms.old keys.old start }
    requires skipped_value { (start.skipped ≡ 0) × (start.keys ≡ 0) × (length keys.old ≡ record_limit) }
    ensures took { (S : Schema) (rs : List Triple) (others : List Quad) (k : Taken) → read_schema schema.now ≡ some S → read_page page.now ≡ some rs
        → HeldTaken terms.old keys.old others start k → Took terms.new keys.new others result (take_all S graph rs k) }
    ensures keys_le_record_limit { result.keys ≤ record_limit }
{
    let mut hashes = hash_slots(terms, start.terms);
    take_records(
        page,
        schema,
        entries,
        graph,
        terms,
        &mut hashes,
        keys,
        start,
    )
}
