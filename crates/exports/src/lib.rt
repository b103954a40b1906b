// The calls as other programs link them, over the saved run as bytes and back. `exports_c` is the C interface over them.
#![tactic(auto)]

ghost use Rattle.std.specs.Prelude.{◌≡◌, List, ℕ};
ghost use Rattle.definitions.specs.Outcome.{ok};
ghost use Rattle.definitions.specs.Exports.{load_export, run_export, page_export, total_export, number_export, suggest_export, schema_export, publish_export};

use definitions::Refusal;
use layout::reading;

// Load: 1, 21, 2 to 9.
// Ruled out: a load that ignores the saved buffer's length; a refused load that writes the saved run of zeros.
pub fn willetcoffer_load(
    ranks: &[u8],
    terms: &[u8],
    schema: &[u8],
    script: &[u8],
    term_table: &mut [u8],
    quad_table: &mut [u8],
    saved: &mut [u8],
) -> u32
    ensures { load_export
        (record {
          ranks = ranks.now;
          terms = terms.now;
          schema = schema.now;
          script = script.now;
          term_table = term_table.old;
          quad_table = quad_table.old;
        })
        saved.old
        ≡ record {
          number = result;
          term_table = term_table.new;
          quad_table = quad_table.new;
          saved = saved.new;
        } }
{
    if !lengths::load_fits(saved.len()) {
        return Refusal::WrongLength.number() as u32;
    }
    let loaded = loading::load(ranks, terms, schema, script, term_table, quad_table);
    let answer = loaded.answer;
    let first = loaded.saved;
    handing_back::after_load(answer, first, saved)
}

// Run: 1, 21, 10, 11.
// Ruled out: a run that writes the report on a refusal; one that runs on from bytes that no saved run has.
pub fn willetcoffer_run(
    ranks: &[u8],
    terms: &[u8],
    schema: &[u8],
    script: &[u8],
    term_table: &[u8],
    quad_table: &[u8],
    saved: &mut [u8],
    budget: u64,
    clock: i64,
    report: &mut [u8],
) -> u32
    ensures { run_export
        (record {
          ranks = ranks.now;
          terms = terms.now;
          schema = schema.now;
          script = script.now;
          term_table = term_table.now;
          quad_table = quad_table.now;
        })
        saved.old budget clock report.old
        ≡ ok (record { number = result; saved = saved.new; report = report.new }) }
{
    if !lengths::run_fits(
        ranks.len(),
        term_table.len(),
        quad_table.len(),
        saved.len(),
        report.len(),
    ) {
        return Refusal::WrongLength.number() as u32;
    }
    let read = reading::read_saved(saved);
    if !read.ok {
        return alphabet::unread_refusal(ranks).number() as u32;
    }
    let before = read.saved;
    let ran = running::run(
        ranks, terms, schema, script, term_table, quad_table, before, budget, clock,
    );
    let answer = ran.answer;
    let after = ran.saved;
    handing_back::after_run(answer, after, saved, report)
}

// Page: 1, 21, 10, 12, 13, 14.
// Ruled out: a page that writes the saved run on a refusal; one that counts the skipped records of a refused page.
pub fn willetcoffer_page(
    ranks: &[u8],
    terms: &[u8],
    schema: &[u8],
    script: &[u8],
    term_table: &mut [u8],
    quad_table: &mut [u8],
    saved: &mut [u8],
    graph: u64,
    page: &[u8],
    report: &mut [u8],
) -> u32
    ensures { page_export
        (record {
          ranks = ranks.now;
          terms = terms.now;
          schema = schema.now;
          script = script.now;
          term_table = term_table.old;
          quad_table = quad_table.old;
        })
        saved.old graph page.now report.old
        ≡ record {
          number = result;
          term_table = term_table.new;
          quad_table = quad_table.new;
          saved = saved.new;
          report = report.new;
        } }
{
    if !lengths::page_fits(
        ranks.len(),
        term_table.len(),
        quad_table.len(),
        saved.len(),
        report.len(),
    ) {
        return Refusal::WrongLength.number() as u32;
    }
    let read = reading::read_saved(saved);
    if !read.ok {
        return alphabet::unread_refusal(ranks).number() as u32;
    }
    let before = read.saved;
    let paged = paging::page(
        ranks, terms, schema, script, term_table, quad_table, before, graph, page,
    );
    let answer = paged.answer;
    let kept = paged.saved;
    handing_back::after_page(answer, kept, saved, report)
}

// Total: 1 for its report, then 2 to 7.
// Ruled out: a total that takes a report of any length; one that returns 0 for a refused card.
pub fn willetcoffer_total(terms: &[u8], schema: &[u8], script: &[u8], report: &mut [u8]) -> u32
    ensures { total_export terms.now schema.now script.now report.old
        ≡ record { number = result; report = report.new } }
{
    byte_calls::total(terms, schema, script, report)
}

// Number: 1 for its record, then 16, 17.
// Ruled out: a record of any length taken; a decimal's record with the kind of an integer.
pub fn willetcoffer_number(text: &[u8], record: &mut [u8]) -> u32
    ensures { number_export text.now «record».old ≡ record { number = result; «record» = «record».new } }
{
    byte_calls::number(text, record)
}

// Suggest: 1 for its report, then 2 to 8.
// Ruled out: a suggestion that takes a report of any length; one that returns 0 for a refused card.
pub fn willetcoffer_suggest(terms: &[u8], schema: &[u8], script: &[u8], report: &mut [u8]) -> u32
    ensures { suggest_export terms.now schema.now script.now report.old
        ≡ record { number = result; report = report.new } }
{
    byte_calls::suggest(terms, schema, script, report)
}

// A schema out of a page: 1, 13, 19. `schema` is the buffer that takes its records.
// Ruled out: a schema call that takes a report of any length; one that reports a refused page.
pub fn willetcoffer_schema(page: &[u8], schema: &mut [u8], report: &mut [u8]) -> u32
    ensures { schema_export page.now schema.old report.old
        ≡ record { number = result; schema = schema.new; report = report.new } }
{
    byte_calls::schema(page, schema, report)
}

// Publish: 1, 10, 22, 23.
// Ruled out: a publish that takes a report of any length; one that reports the length of a page that it does not write.
pub fn willetcoffer_publish(
    terms: &[u8],
    schema: &[u8],
    script: &[u8],
    term_table: &[u8],
    quad_table: &[u8],
    saved: &[u8],
    graph: u64,
    page: &mut [u8],
    report: &mut [u8],
) -> u32
    ensures { (ranks : List ℕ) → publish_export
        (record {
          ranks = ranks;
          terms = terms.now;
          schema = schema.now;
          script = script.now;
          term_table = term_table.now;
          quad_table = quad_table.now;
        })
        saved.now graph page.old report.old
        ≡ record { number = result; page = page.new; report = report.new } }
{
    if !lengths::publish_fits(
        term_table.len(),
        quad_table.len(),
        saved.len(),
        report.len(),
    ) {
        return Refusal::WrongLength.number() as u32;
    }
    let read = reading::read_saved(saved);
    if !read.ok {
        return Refusal::Unsound.number() as u32;
    }
    let before = read.saved;
    let answer = publishing::publish(
        terms, schema, script, term_table, quad_table, before, graph, page,
    );
    handing_back::after_publish(answer, report)
}
