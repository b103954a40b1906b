// A schema out of a page (document 02, Ask 7): an entry for each subject that has a least datatype.
#![tactic(auto)]

pub mod entries; // entries.rt: the schema records of subjects

ghost use Rattle.std.specs.Prelude.{◌≡◌};
ghost use Rattle.definitions.specs.Calls.{schema_call};

use crate::entries::{entry_count, put_entries};
use definitions::{ENTRY_LIMIT, PAGE_LIMIT, Refusal, SCHEMA_WIDTH, SchemaAnswer, SchemaCounts};
use subjects::subjects_of;

// A schema out of a page, into a lent buffer: 1, 13, 19.
// Ruled out: an entry for a subject that has no least datatype; a buffer written although 19 is told.
pub fn gather(page: &[u8], schema: &mut [u8]) -> SchemaAnswer
    ensures { schema_call page.now schema.old ≡ record { answer = result; schema = schema.new } }
{
    if schema.len() != SCHEMA_WIDTH {
        return Err(Refusal::WrongLength);
    }
    if PAGE_LIMIT < page.len() {
        return Err(Refusal::BadPage);
    }
    let noting = subjects_of(page);
    if !noting.good {
        return Err(Refusal::BadPage);
    }
    let subjects = noting.subjects;
    let entries = entry_count(subjects);
    if ENTRY_LIMIT < entries {
        return Err(Refusal::TooManyEntries);
    }
    put_entries(page, subjects, schema);
    let left_out = subjects.count - entries;
    Ok(SchemaCounts {
        entries: entries as u32,
        left_out: left_out as u32,
    })
}
