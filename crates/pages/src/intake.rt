// A page call's work, on copies of both tables: they come back only where no limit is passed.
ghost use Rattle.std.specs.Prelude.{true, ◌≡◌, List, ◌≤◌, length};
ghost use Rattle.std.proofs.Math.Option.{some};
ghost use Rattle.definitions.specs.Limits.{page_limit, term_table_width};
ghost use Rattle.pages.specs.Room.{record_limit, gathered_limit};
ghost use Rattle.definitions.specs.Terms.{Term, Schema, Triple, read_schema, read_page};
ghost use Rattle.definitions.specs.Evaluate.{Quad};
ghost use Rattle.definitions.specs.Machine.{Store, take_all, in_order};
ghost use Rattle.laws.specs.Lists.{All};
ghost use Rattle.laws.specs.Quads.{Small};
ghost use Rattle.keys.specs.Keys.{rows_from};
ghost use Rattle.ordering.specs.Sets.{Gathered, apart};
ghost use Rattle.table.specs.Table.{HeldTerms};
ghost use Rattle.pages.specs.Page.{Held, HeldQuads, HeldSome, PageReads, Reads, Took};
ghost use Rattle.pages.specs.Taking.{start_of, HeldStore, HeldTables, PageDone, refused_page};

use crate::triples::take_triples;
use crate::{AfterPage, Counts, GATHERED_LIMIT, RECORD_LIMIT};
use definitions::{
    QUAD_LIMIT, QUAD_TABLE_WIDTH, Refusal, SavedStore, TERM_LIMIT, TERM_TABLE_WIDTH,
};
use ordering::take_page;
use quad_table::{read_keys, write_keys};
use store::graphs::{graph_fits, with_page};

fn refused(store: SavedStore) -> AfterPage
    ensures { result ≡ refused_page store }
{
    AfterPage {
        answer: Err(Refusal::NoRoom),
        store,
    }
}

// Copies the term table, and takes the page's records into the copy and into keys.
fn take_copies(
    graph: u16,
    n: usize,
    schema: &[u8],
    entries: &[u16],
    page: &[u8],
    lent: &[u8],
    terms: &mut [u8],
    keys: &mut [u64],
) -> Counts
    requires page_reads { PageReads page.now }
    requires page_len_bound { length page.now ≤ page_limit }
    requires reads { Reads schema.now entries.now }
    requires held { Held lent.now n }
    requires terms_len { length terms.old ≡ term_table_width }
    requires keys_len { length keys.old ≡ record_limit }
    ensures took { (S : Schema) (rs : List Triple) (ts : List Term) (others : List Quad) → read_schema schema.now ≡ some S → read_page page.now ≡ some rs
        → HeldTerms lent.now n ts → in_order others ≡ true → All Small others
        → Took terms.new keys.new others result (take_all S graph rs (start_of ts others)) }
    ensures keys_le_record_limit { result.keys ≤ record_limit }
{
    terms.copy_from_slice(lent);
    let start = Counts {
        terms: n,
        keys: 0,
        skipped: 0,
    };
    take_triples(page, schema, entries, graph, terms, keys, start)
}

// The keys after the page: those of other graphs and the page's, in their order, each once; how many.
fn put_in_order(
    stored: &[u8],
    count: usize,
    graph: u16,
    fresh: &mut [u64],
    keys: &mut [u64],
) -> usize
    requires held_some { HeldSome stored.now count }
    requires fresh_len_bound { length fresh.old ≤ record_limit }
    requires keys_len { length keys.old ≡ gathered_limit }
    ensures value { (qs after : List Quad) → HeldQuads stored.now count qs → Gathered (apart graph qs) fresh.old (length fresh.old) after
        → (result ≡ length after) × (rows_from result keys.new 0 ≡ after) }
    ensures upper_bound { result ≤ gathered_limit }
{
    let mut work = [0u64; GATHERED_LIMIT];
    read_keys(stored, count, keys);
    take_page(keys, count, graph as u64, fresh, &mut work)
}

// Takes a page in: the skipped count, the saved store and both tables after it, or refusal 14.
// Ruled out: tables changed by a page that is refused; a page that passes a limit taken in.
pub fn take_in(
    store: SavedStore,
    graph: u16,
    n: usize,
    schema: &[u8],
    entries: &[u16],
    page: &[u8],
    lent: &mut [u8],
    stored: &mut [u8],
) -> AfterPage
    requires page_reads { PageReads page.now }
    requires page_len_bound { length page.now ≤ page_limit }
    requires reads { Reads schema.now entries.now }
    requires held_tables { HeldTables lent.old stored.old n store }
    ensures { (S : Schema) (rs : List Triple) (σ : Store) → read_schema schema.now ≡ some S → read_page page.now ≡ some rs
        → HeldStore lent.old stored.old n store σ
        → PageDone S graph rs σ store lent.old stored.old result lent.new stored.new }
{
    if !graph_fits(store, graph) {
        return refused(store);
    }
    let mut terms = [0u8; TERM_TABLE_WIDTH];
    let mut fresh = [0u64; RECORD_LIMIT];
    let end = take_copies(
        graph, n, schema, entries, page, lent, &mut terms, &mut fresh,
    );
    if TERM_LIMIT < end.terms {
        return refused(store);
    }
    let mut keys = [0u64; GATHERED_LIMIT];
    let old = store.quads as usize;
    let count = put_in_order(stored, old, graph, &mut fresh[..end.keys], &mut keys);
    let too_many = QUAD_LIMIT < count;
    if too_many {
        return refused(store);
    }
    let mut quads = [0u8; QUAD_TABLE_WIDTH];
    write_keys(&keys[..count], &mut quads);
    lent.copy_from_slice(&terms);
    stored.copy_from_slice(&quads);
    let after = with_page(store, graph, count as u16);
    AfterPage {
        answer: Ok(end.skipped),
        store: after,
    }
}
