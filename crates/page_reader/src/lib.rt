// Reading a page: its records one by one, each beginning where the last one ended.
#![tactic(auto)]

ghost use Rattle.std.specs.Prelude.{Some, true, ◌≡◌};
ghost use Rattle.definitions.specs.Terms.{read_triple};
ghost use Rattle.laws.specs.ReadAnswers.{is_some, next_of};

use definitions::OBJECT_OFFSET;
use term_bodies::bodies::body_width;

// A page from an offset on: the record there is the next one to be read.
#[derive(Clone, Copy)]
pub struct PageReader<'a> {
    pub page: &'a [u8],
    pub at: usize,
}

// The offset after a record.
fn record_end(page: &[u8], at: usize) -> usize
    requires { is_some (read_triple page.now at) ≡ true }
    ensures { Some result ≡ next_of (read_triple page.now at) }
{
    let kind = page[at] - 0x70;
    at + OBJECT_OFFSET + body_width(kind)
}

impl<'a> PageReader<'a> {
    // The reader of what is left after its record: it begins where the record ended.
    fn advanced(self) -> PageReader<'a>
        requires { is_some (read_triple self.page.now self.at) ≡ true }
        ensures { (result.page ≡ self.entry.page) × (Some result.at ≡ next_of (read_triple self.entry.page.now self.entry.at)) }
    {
        PageReader {
            page: self.page,
            at: record_end(self.page, self.at),
        }
    }
}

// The offset of the record after the one at an offset.
// Ruled out: a reader that stays where it is; one that begins within a record.
pub fn next_record(page: &[u8], at: usize) -> usize
    requires { is_some (read_triple page.now at) ≡ true }
    ensures { Some result ≡ next_of (read_triple page.now at) }
{
    PageReader { page, at }.advanced().at
}
