// The subjects of a page of which something is asked (document 02, Ask 7), and the least datatype that meets it: noted record by record.
#![tactic(auto)]

ghost use Rattle.std.specs.Prelude.{◌≡◌, true, List, ℕ, ◌+◌, ◌≤◌, ◌<◌, length};
ghost use Rattle.std.proofs.Math.Option.{Option, some};
ghost use Rattle.definitions.specs.Limits.{text_width, page_limit};
ghost use Rattle.definitions.specs.Bytes.{part, same_bytes};
ghost use Rattle.definitions.specs.Types.{Datatype, datatype_code};
ghost use Rattle.definitions.specs.Terms.{Text, Triple, uri_text, read_page};
ghost use Rattle.definitions.specs.Gathering.{Asking, askings};
ghost use Rattle.laws.specs.ReadAnswers.{is_some};
ghost use Rattle.laws.specs.Gathering.{with_asked};
ghost use Rattle.fields.specs.Answers.{code_of};
ghost use Rattle.table.specs.Hashes.{hash_of, uri_slot};
ghost use Rattle.subjects.specs.Room.{subject_limit};
ghost use Rattle.asks.specs.PageRecords.{RecordAt};
ghost use Rattle.subjects.specs.Noted.{field_at, FieldsWithin, FieldsHashed, First, Noted, one_more};

use asks::asked;
use codes::below;
use definitions::{OBJECT_OFFSET, PAGE_LIMIT, PROPERTY_OFFSET, TEXT_WIDTH};
use fields::numbers::{number_index, same_bytes};
use record_reading::read_triple;
use table::hashes::{find, hash_of};
use table::slots::slot_of;

// A record that asks: its object is a URI. `Room` in specs/ has the same names and numbers.
pub const ASKING_WIDTH: usize = OBJECT_OFFSET + TEXT_WIDTH;

// Of so many subjects a page can ask something.
pub const SUBJECT_LIMIT: usize = PAGE_LIMIT / ASKING_WIDTH;

// Subjects in the order of their first asking record: where the URI of each stands in the page, its slot's hash, and the code of the least
// datatype that meets what is asked so far, 0 where there is none.
#[derive(Clone, Copy)]
pub struct Subjects {
    pub count: usize,
    pub offsets: [u16; SUBJECT_LIMIT],
    pub hashes: [u16; SUBJECT_LIMIT],
    pub codes: [u8; SUBJECT_LIMIT],
}

// Whether all records of a page are good, and the subjects of which they ask something.
#[derive(Clone, Copy)]
pub struct Noting {
    pub good: bool,
    pub subjects: Subjects,
}

// The code of the least datatype that meets what was asked and a datatype more, 0 where there is none.
// Ruled out: integer for integer with decimal; a datatype for two families.
pub fn join(held: u8, code: u8) -> u8
    ensures { (o : Option Datatype) (d : Datatype) → held ≡ code_of o → code ≡ datatype_code d → result ≡ code_of (with_asked o d) }
{
    if held == 0 {
        return 0;
    }
    if below(code, held) {
        return held;
    }
    if below(held, code) {
        return code;
    }
    0
}

// Whether a field has the bytes of a URI's, compared as arrays: their width is known to the compiler, so that it takes many bytes at once without a call.
// Ruled out: a field that begins like the URI's; the last byte left out.
fn same_field(field: &[u8], uri: &[u8]) -> bool
    ensures { result ≡ same_bytes field.now uri.now }
{
    match (
        <&[u8; TEXT_WIDTH]>::try_from(field),
        <&[u8; TEXT_WIDTH]>::try_from(uri),
    ) {
        (Ok(a), Ok(b)) => a == b,
        _ => same_bytes(field, uri),
    }
}

// The place of a URI field of that hash among those at the first n offsets.
// Ruled out: fields with the same hash taken for the same; the last offset left out.
pub fn find_subject(
    page: &[u8],
    offsets: &[u16],
    hashes: &[u16],
    n: usize,
    uri: &[u8],
    hash: u16,
) -> Option<usize>
    requires n_in_bounds { n ≤ length offsets.now }
    requires n_in_bounds_2 { n ≤ length hashes.now }
    requires fields_within { FieldsWithin page.now offsets.now n }
    requires fields_hashed { FieldsHashed page.now offsets.now n hashes.now }
    requires hash_value { hash ≡ hash_of (uri_slot uri.now) }
    ensures { First (λ i. same_bytes (field_at page.now offsets.now i) uri.now) n result }
{
    find(&hashes[..n], hash, 0, |i| {
        let field = number_index(offsets[i]);
        same_field(&page[field..field + TEXT_WIDTH], uri)
    })
}

// Notes a datatype that the record at an offset asks for.
// Ruled out: a second place for a subject that is there; the datatype of the first asking record kept.
fn note(page: &[u8], at: usize, code: u8, subjects: &mut Subjects)
    requires record_at { RecordAt page.now at }
    requires page_len_bound { length page.now ≤ page_limit }
    requires count_lt_subject_limit { subjects.old.count < subject_limit }
    requires noted { (all : List Asking) × Noted page.now all subjects.old }
    ensures noted_2 { (all : List Asking) (u : Text) (d : Datatype) → Noted page.now all subjects.old → uri_text (part page.now (at + 1) text_width) ≡ some u
        → code ≡ datatype_code d → Noted page.now (one_more all u d) subjects.new }
    ensures count_bound { subjects.new.count ≤ subjects.old.count + 1 }
{
    let field = at + 1;
    let end = at + PROPERTY_OFFSET;
    let slot = slot_of(0x11, &page[field..end]);
    let hash = hash_of(&slot);
    let n = subjects.count;
    let found = find_subject(
        page,
        &subjects.offsets,
        &subjects.hashes,
        n,
        &page[field..end],
        hash,
    );
    if let Some(i) = found {
        let held = subjects.codes[i];
        subjects.codes[i] = join(held, code);
        return;
    }
    subjects.offsets[n] = field as u16;
    subjects.hashes[n] = hash;
    subjects.codes[n] = code;
    subjects.count = n + 1;
}

// The subjects of which a page asks something, if all its records are good.
// Ruled out: a page taken up to its first bad record; subjects of records that ask nothing.
pub fn subjects_of(page: &[u8]) -> Noting
    requires { length page.now ≤ page_limit }
    ensures good_value { result.good ≡ is_some (read_page page.now) }
    ensures noted { (rs : List Triple) → read_page page.now ≡ some rs → Noted page.now (askings rs) result.subjects }
    ensures count_le_subject_limit { result.subjects.count ≤ subject_limit }
{
    let mut subjects = Subjects {
        count: 0,
        offsets: [0u16; SUBJECT_LIMIT],
        hashes: [0u16; SUBJECT_LIMIT],
        codes: [0u8; SUBJECT_LIMIT],
    };
    let mut at = 0;
    while at < page.len() {
        let Some(next) = read_triple(page, at) else {
            return Noting {
                good: false,
                subjects,
            };
        };
        if let Some(code) = asked(page, at) {
            note(page, at, code, &mut subjects);
        }
        at = next;
    }
    Noting {
        good: true,
        subjects,
    }
}
