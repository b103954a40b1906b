// What a call hands back at the C interface, all together: its number, and saved run, report or record where it takes them.
#![tactic(auto)]

ghost use Rattle.std.specs.Prelude.{◌≡◌, length};
ghost use Rattle.definitions.specs.Limits.{saved_width, run_report_width, page_report_width, total_report_width, number_record_width, suggest_report_width, schema_report_width, publish_report_width};
ghost use Rattle.definitions.specs.Numbers.{answer_number, result_number, term_read};
ghost use Rattle.definitions.specs.Exports.{saved_after, run_report, count_report, record_after, suggest_report, schema_report};

use definitions::{
    LoadAnswer, NumberAnswer, PageAnswer, PublishAnswer, RunAnswer, SavedRun, SchemaAnswer,
    SuggestAnswer, TotalAnswer,
};
use number_record::write_term;
use reports::{answer_number, hand_back, write_count_report, write_schema_report};
use run_report::write_run_report;
use suggest_report::write_suggest_report;

// After a load: its number, and the saved run where nothing was refused.
// Ruled out: a refused load that writes the saved run of zeros; one that returns 0 for a refused card.
pub fn after_load(answer: LoadAnswer, first: SavedRun, saved: &mut [u8]) -> u32
    requires { length saved.old ≡ saved_width }
    ensures value { result ≡ answer_number answer }
    ensures saved_after { saved.new ≡ saved_after result first saved.old }
{
    let number = answer_number(answer);
    hand_back(number, first, saved);
    number
}

// After a run: its number, the saved run where nothing was refused, and the report.
// Ruled out: a run that writes the report on a refusal; one that leaves the saved run as it was.
pub fn after_run(answer: RunAnswer, after: SavedRun, saved: &mut [u8], report: &mut [u8]) -> u32
    requires saved_len { length saved.old ≡ saved_width }
    requires report_len { length report.old ≡ run_report_width }
    ensures value { result ≡ answer_number answer }
    ensures saved_after { saved.new ≡ saved_after result after saved.old }
    ensures report_after { report.new ≡ run_report report.old answer }
{
    let number = answer_number(answer);
    hand_back(number, after, saved);
    write_run_report(answer, report);
    number
}

// After a page: its number, the saved run where nothing was refused, and the report.
// Ruled out: a page that writes the saved run on a refusal; one that counts the skipped records of a refused page.
pub fn after_page(answer: PageAnswer, kept: SavedRun, saved: &mut [u8], report: &mut [u8]) -> u32
    requires saved_len { length saved.old ≡ saved_width }
    requires report_len { length report.old ≡ page_report_width }
    ensures value { result ≡ answer_number answer }
    ensures saved_after { saved.new ≡ saved_after result kept saved.old }
    ensures report_after { report.new ≡ count_report report.old answer }
{
    let number = answer_number(answer);
    hand_back(number, kept, saved);
    write_count_report(answer, report);
    number
}

// After a total: its number and the report.
// Ruled out: a total that returns 0 for a refused card; one that reports a refused card.
pub fn after_total(total: TotalAnswer, report: &mut [u8]) -> u32
    requires { length report.old ≡ total_report_width }
    ensures value { result ≡ answer_number total }
    ensures report_after { report.new ≡ count_report report.old total }
{
    write_count_report(total, report);
    answer_number(total)
}

// After a number: the refusal and the record.
// Ruled out: a record of a text that is refused; 0 for such a text.
pub fn after_number(answer: NumberAnswer, record: &mut [u8]) -> u32
    requires { length «record».old ≡ number_record_width }
    ensures value { result ≡ result_number (term_read answer) }
    ensures record_after { «record».new ≡ record_after «record».old (term_read answer) }
{
    write_term(answer, record);
    answer_number(answer)
}

// After a suggestion: its number and the report.
// Ruled out: a suggestion that returns 0 for a refused card; one that reports a refused card.
pub fn after_suggest(answer: SuggestAnswer, report: &mut [u8]) -> u32
    requires { length report.old ≡ suggest_report_width }
    ensures value { result ≡ answer_number answer }
    ensures report_after { report.new ≡ suggest_report report.old answer }
{
    write_suggest_report(answer, report);
    answer_number(answer)
}

// After a schema out of a page: its number and the report.
// Ruled out: a schema call that reports a refused page; one that returns 0 for such a page.
pub fn after_schema(answer: SchemaAnswer, report: &mut [u8]) -> u32
    requires { length report.old ≡ schema_report_width }
    ensures value { result ≡ answer_number answer }
    ensures report_after { report.new ≡ schema_report report.old answer }
{
    write_schema_report(answer, report);
    answer_number(answer)
}

// After a publish: its number and the report.
// Ruled out: a refused publish that returns 0; one that reports the length of a page that it does not write.
pub fn after_publish(published: PublishAnswer, report: &mut [u8]) -> u32
    requires { length report.old ≡ publish_report_width }
    ensures value { result ≡ answer_number published }
    ensures report_after { report.new ≡ count_report report.old published }
{
    write_count_report(published, report);
    answer_number(published)
}
