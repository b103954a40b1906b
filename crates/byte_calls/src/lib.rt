// The calls on bytes that are lent no saved run: total, number, suggest and schema.
#![tactic(auto)]

ghost use Rattle.std.specs.Prelude.{◌≡◌};
ghost use Rattle.definitions.specs.Exports.{total_export, number_export, suggest_export, schema_export};

use definitions::Refusal;
use handing_back::{after_number, after_schema, after_suggest, after_total};
use lengths::{number_fits, schema_fits, suggest_fits, total_fits};

// Total: 1 for its report, then 2 to 7.
// Ruled out: a total that takes a report of any length; one that returns 0 for a refused card.
pub fn total(terms: &[u8], schema: &[u8], script: &[u8], report: &mut [u8]) -> u32
    ensures { total_export terms.now schema.now script.now report.old
        ≡ record { number = result; report = report.new } }
{
    if !total_fits(report.len()) {
        return Refusal::WrongLength.number() as u32;
    }
    let answer = card_calls::total::total(terms, schema, script);
    after_total(answer, report)
}

// Number: 1 for its record, then 16, 17.
// Ruled out: a record of any length taken; a decimal's record with the kind of an integer.
pub fn number(text: &[u8], record: &mut [u8]) -> u32
    ensures { number_export text.now «record».old ≡ record { number = result; «record» = «record».new } }
{
    if !number_fits(record.len()) {
        return Refusal::WrongLength.number() as u32;
    }
    let answer = numbers::read_number(text);
    after_number(answer, record)
}

// Suggest: 1 for its report, then 2 to 8.
// Ruled out: a suggestion that takes a report of any length; one that returns 0 for a refused card.
pub fn suggest(terms: &[u8], schema: &[u8], script: &[u8], report: &mut [u8]) -> u32
    ensures { suggest_export terms.now schema.now script.now report.old
        ≡ record { number = result; report = report.new } }
{
    if !suggest_fits(report.len()) {
        return Refusal::WrongLength.number() as u32;
    }
    let answer = card_calls::suggest::suggest(terms, schema, script);
    after_suggest(answer, report)
}

// A schema out of a page: 1, 13, 19. `schema` is the buffer that takes its records.
// Ruled out: a schema call that takes a report of any length; one that reports a refused page.
pub fn schema(page: &[u8], schema: &mut [u8], report: &mut [u8]) -> u32
    ensures { schema_export page.now schema.old report.old
        ≡ record { number = result; schema = schema.new; report = report.new } }
{
    if !schema_fits(report.len()) {
        return Refusal::WrongLength.number() as u32;
    }
    let answer = gathering::gather(page, schema);
    after_schema(answer, report)
}
