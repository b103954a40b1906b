// The page call: refusals 1, 10, 12, 13 and 14 in this order, then the page taken in on copies of both tables.
#![tactic(auto)]

ghost use Rattle.std.specs.Prelude.{◌≡◌, List, ℕ};
ghost use Rattle.definitions.specs.Calls.{page_in, page_call};
ghost use Rattle.laws.specs.ReadAnswers.{is_some};
ghost use Rattle.lengths.specs.Lent.{lent_of};
ghost use Rattle.paging.specs.Refused.{handed_back};
ghost use Rattle.paging.specs.Passed.{Passed};

use definitions::{PAGE_LIMIT, Paged, QUAD_LIMIT, Refusal, SavedRun, TERM_LIMIT};
use entry::enter;
use graph_tests::is_graph;
use pages::intake::take_in;
use records::lists::count_triples;
use store::canonical::{canonical_control, canonical_store};

// Whether a page has no more bytes than it may, and good records only.
fn page_ok(page: &[u8]) -> bool
    ensures { result ≡ is_some (page_in page.now) }
{
    if PAGE_LIMIT < page.len() {
        return false;
    }
    let Some(_) = count_triples(page) else {
        return false;
    };
    true
}

// Takes in what passed refusals 1 to 13.
fn take(
    terms: &[u8],
    schema: &[u8],
    script: &[u8],
    table: &mut [u8],
    store: &mut [u8],
    saved: SavedRun,
    count: usize,
    entries: &[u16],
    graph: u64,
    page: &[u8],
) -> Result<Paged, Refusal>
    requires { (ranks : List ℕ) × Passed (lent_of ranks terms.now schema.now script.now table.old store.old) saved count entries.now graph page.now }
    ensures { (ranks : List ℕ)
        → Passed (lent_of ranks terms.now schema.now script.now table.old store.old) saved count entries.now graph page.now
        → page_call (lent_of ranks terms.now schema.now script.now table.old store.old) saved graph page.now
        ≡ record { returned = handed_back saved result; term_table = table.new; quad_table = store.new } }
{
    let control = saved.control;
    let clean = canonical_control(control, script);
    let saved_store = saved.store;
    let kept = canonical_store(saved_store);
    let done = take_in(
        kept,
        graph as u16,
        count,
        schema,
        entries,
        page,
        table,
        store,
    );
    let skipped = done.answer?;
    let after = done.store;
    Ok(Paged {
        answer: Ok(skipped),
        saved: SavedRun {
            control: clean,
            store: after,
        },
    })
}

// The page taken in, where nothing is refused.
fn take_page(
    ranks: &[u8],
    terms: &[u8],
    schema: &[u8],
    script: &[u8],
    table: &mut [u8],
    store: &mut [u8],
    saved: SavedRun,
    graph: u64,
    page: &[u8],
) -> Result<Paged, Refusal>
    ensures { page_call (lent_of ranks.now terms.now schema.now script.now table.old store.old) saved graph page.now
        ≡ record { returned = handed_back saved result; term_table = table.new; quad_table = store.new } }
{
    let mut keys = [0u64; QUAD_LIMIT];
    let mut leasts = [0u8; TERM_LIMIT];
    let entered = enter(
        ranks,
        terms,
        schema,
        script,
        table,
        store,
        saved,
        &mut keys,
        &mut leasts,
    )?;
    let count = entered.count;
    let entries = entered.entries;
    if !is_graph(&leasts, count, graph) {
        return Err(Refusal::NoGraph);
    }
    if !page_ok(page) {
        return Err(Refusal::BadPage);
    }
    take(
        terms, schema, script, table, store, saved, count, &entries, graph, page,
    )
}

// The page call. Ruled out: a page that keeps the graph's old quads; a refused page that leaves new terms behind.
pub fn page(
    ranks: &[u8],
    terms: &[u8],
    schema: &[u8],
    script: &[u8],
    table: &mut [u8],
    store: &mut [u8],
    saved: SavedRun,
    graph: u64,
    page: &[u8],
) -> Paged
    ensures { page_call (lent_of ranks.now terms.now schema.now script.now table.old store.old) saved graph page.now
        ≡ record { returned = result; term_table = table.new; quad_table = store.new } }
{
    match take_page(
        ranks, terms, schema, script, table, store, saved, graph, page,
    ) {
        Ok(paged) => paged,
        Err(refusal) => Paged {
            answer: Err(refusal),
            saved,
        },
    }
}
