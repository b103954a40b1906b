// The lengths of what is lent: refusal 1.
#![tactic(auto)]

ghost use Rattle.std.specs.Prelude.{◌≡◌, ◌&&◌, eqb, length};
ghost use Rattle.definitions.specs.Limits.{term_table_width, quad_table_width, saved_width, run_report_width, page_report_width};
ghost use Rattle.definitions.specs.Limits.{total_report_width, number_record_width, suggest_report_width, schema_report_width, publish_report_width};
ghost use Rattle.definitions.specs.Calls.{tables_fit};
ghost use Rattle.lengths.specs.Buffers.{buffers_fit, saved_fits};

use definitions::{
    NUMBER_RECORD_WIDTH, PAGE_REPORT_WIDTH, PUBLISH_REPORT_WIDTH, QUAD_TABLE_WIDTH, RANKS_WIDTH,
    RUN_REPORT_WIDTH, SAVED_WIDTH, SCHEMA_REPORT_WIDTH, SUGGEST_REPORT_WIDTH, TERM_TABLE_WIDTH,
    TOTAL_REPORT_WIDTH,
};

// Whether ranks and both tables have their lengths. Ruled out: one of them not looked at; a table that is longer.
pub fn tables_fit(ranks: &[u8], table: &[u8], store: &[u8]) -> bool
    ensures { result ≡ tables_fit (record { ranks = length ranks.now; term_table = length table.now; quad_table = length store.now }) }
{
    (ranks.len() == RANKS_WIDTH) & both_fit(table, store)
}

// The same without ranks. Ruled out: the quad table not looked at; a table that is longer.
pub fn both_fit(table: &[u8], store: &[u8]) -> bool
    ensures { result ≡ (eqb (length table.now) term_table_width && eqb (length store.now) quad_table_width) }
{
    (table.len() == TERM_TABLE_WIDTH) & (store.len() == QUAD_TABLE_WIDTH)
}

// Whether a buffer has its width.
fn width_fits<const WIDTH: usize>(bytes: usize) -> bool
    ensures { result ≡ eqb bytes WIDTH }
{
    bytes == WIDTH
}

// The lengths of what a call on a saved run is lent, but for the ranks.
#[derive(Clone, Copy)]
struct Buffers {
    terms: usize,
    quads: usize,
    saved: usize,
    report: usize,
}

impl Buffers {
    // Tables, saved run and report have their lengths.
    // Ruled out: a saved run of another length taken for good; a test of the report alone.
    fn fit<const WIDTH: usize>(self) -> bool
        ensures { result ≡ saved_fits self.terms self.quads self.saved self.report WIDTH }
    {
        ((self.terms == TERM_TABLE_WIDTH) & (self.quads == QUAD_TABLE_WIDTH))
            & ((self.saved == SAVED_WIDTH) & (self.report == WIDTH))
    }

    // So have the ranks.
    // Ruled out: a report of another length taken for good; a test of the tables alone.
    fn fit_with_ranks<const WIDTH: usize>(self, ranks: usize) -> bool
        ensures { result ≡ buffers_fit (record { ranks = ranks; term_table = self.terms; quad_table = self.quads }) self.saved self.report WIDTH }
    {
        (ranks == RANKS_WIDTH) & self.fit::<WIDTH>()
    }
}

// What a run is lent. Ruled out: a report as long as a page's; ranks of another length.
pub fn run_fits(ranks: usize, terms: usize, quads: usize, saved: usize, report: usize) -> bool
    ensures { result ≡ buffers_fit (record { ranks = ranks; term_table = terms; quad_table = quads }) saved report run_report_width }
{
    let lent = Buffers {
        terms,
        quads,
        saved,
        report,
    };
    lent.fit_with_ranks::<RUN_REPORT_WIDTH>(ranks)
}

// What a page call is lent. Ruled out: a report as long as a run's; a saved run of another length.
pub fn page_fits(ranks: usize, terms: usize, quads: usize, saved: usize, report: usize) -> bool
    ensures { result ≡ buffers_fit (record { ranks = ranks; term_table = terms; quad_table = quads }) saved report page_report_width }
{
    let lent = Buffers {
        terms,
        quads,
        saved,
        report,
    };
    lent.fit_with_ranks::<PAGE_REPORT_WIDTH>(ranks)
}

// What a publish call is lent. Ruled out: a report as long as a run's; a quad table of another length.
pub fn publish_fits(terms: usize, quads: usize, saved: usize, report: usize) -> bool
    ensures { result ≡ saved_fits terms quads saved report publish_report_width }
{
    let lent = Buffers {
        terms,
        quads,
        saved,
        report,
    };
    lent.fit::<PUBLISH_REPORT_WIDTH>()
}

// The saved run that a load writes. Ruled out: one as long as a run's report; a longer one.
pub fn load_fits(saved: usize) -> bool
    ensures { result ≡ eqb saved saved_width }
{
    width_fits::<SAVED_WIDTH>(saved)
}

// The report of a total. Ruled out: one as long as a run's; a longer one.
pub fn total_fits(report: usize) -> bool
    ensures { result ≡ eqb report total_report_width }
{
    width_fits::<TOTAL_REPORT_WIDTH>(report)
}

// The record of a number. Ruled out: one as long as a run's report; a longer one.
pub fn number_fits(record: usize) -> bool
    ensures { result ≡ eqb «record» number_record_width }
{
    width_fits::<NUMBER_RECORD_WIDTH>(record)
}

// The report of a suggestion. Ruled out: one as long as a run's; a longer one.
pub fn suggest_fits(report: usize) -> bool
    ensures { result ≡ eqb report suggest_report_width }
{
    width_fits::<SUGGEST_REPORT_WIDTH>(report)
}

// The report of a schema out of a page. Ruled out: one as long as a page's; a longer one.
pub fn schema_fits(report: usize) -> bool
    ensures { result ≡ eqb report schema_report_width }
{
    width_fits::<SCHEMA_REPORT_WIDTH>(report)
}
