// The schema records of subjects that have a least datatype.
ghost use Rattle.std.specs.Prelude.{◌≡◌, List, ℕ, ◌+◌, ◌≤◌, length};
ghost use Rattle.definitions.specs.Limits.{text_width, entry_width, entry_limit, schema_width};
ghost use Rattle.definitions.specs.Bytes.{part};
ghost use Rattle.definitions.specs.Gathering.{Asking};
ghost use Rattle.definitions.specs.Calls.{written};
ghost use Rattle.output.specs.Written.{Written};
ghost use Rattle.subjects.specs.Room.{subject_limit};
ghost use Rattle.subjects.specs.Noted.{Noted};
ghost use Rattle.gathering.specs.Entries.{entries_of, record_bytes, one_for};

use definitions::TEXT_WIDTH;
use fields::numbers::number_index;
use output::{put_byte, put_text};
use subjects::Subjects;

fn one_for(datatype: u8) -> usize
    ensures { (result ≡ one_for datatype) × (result ≤ 1) }
{
    if datatype == 0 { 0 } else { 1 }
}

// How many subjects have a least datatype. Ruled out: those counted that have none; the last left out.
pub fn entry_count(subjects: Subjects) -> usize
    requires { subjects.count ≤ subject_limit }
    ensures by_index { (page : List ℕ) (all : List Asking) → Noted page all subjects → result ≡ length (entries_of all) }
    ensures upper_bound { result ≤ subjects.count }
{
    let mut entries = 0;
    for i in 0..subjects.count {
        entries += one_for(subjects.codes[i]);
    }
    entries
}

// The schema record of the URI field at an offset, none where the code is 0. Ruled out: its kind left out; a record for code 0.
fn put_entry(page: &[u8], field: usize, code: u8, schema: &mut [u8], at: usize) -> usize
    requires text_width_in_bounds { field + text_width ≤ length page.now }
    requires entry_width_in_bounds { (code ≡ 0 → ⊥) → at + entry_width ≤ length schema.old }
    ensures { Written (record_bytes (part page.now field text_width) code) schema.old schema.new at result }
{
    if code == 0 {
        return at;
    }
    let end = field + TEXT_WIDTH;
    let text = put_byte(0x21, schema, at);
    let datatype = put_text(&page[field..end], schema, text);
    put_byte(code, schema, datatype)
}

// The entries of subjects at the front of a buffer. Ruled out: a subject left out that gets an entry; entries in another order.
pub fn put_entries(page: &[u8], subjects: Subjects, schema: &mut [u8])
    requires count_le_subject_limit { subjects.count ≤ subject_limit }
    requires schema_len { length schema.old ≡ schema_width }
    requires noted { (all : List Asking) × Noted page.now all subjects × (length (entries_of all) ≤ entry_limit) }
    ensures { (all : List Asking) → Noted page.now all subjects → schema.new ≡ written (entries_of all) schema.old }
{
    let mut at = 0;
    for i in 0..subjects.count {
        let code = subjects.codes[i];
        let field = number_index(subjects.offsets[i]);
        at = put_entry(page, field, code, schema, at);
    }
}
