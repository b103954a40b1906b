// Whether a page record is well typed: its object by the schema entry of its property.
#![tactic(auto)]

ghost use Rattle.std.specs.Prelude.{◌≡◌, true};
ghost use Rattle.std.proofs.Math.Option.{some};
ghost use Rattle.definitions.specs.Types.{Datatype, datatype_code};
ghost use Rattle.definitions.specs.Terms.{Schema, Triple, of_page_kind, read_schema};
ghost use Rattle.definitions.specs.Machine.{well_typed};
ghost use Rattle.laws.specs.ReadAnswers.{is_some};
ghost use Rattle.laws.specs.Records.{TripleAt};
ghost use Rattle.table.specs.Hashes.{HashedEntries};

use codes::has_type;
use definitions::{OBJECT_OFFSET, PROPERTY_OFFSET};
use records::schema::datatype_of;
use table::hashes::hash_of;
use table::slots::slot_of;

// The code of the datatype of a page record's object.
fn object_code(kind: u8) -> u8
    requires { (d : Datatype) × (of_page_kind kind ≡ some d) }
    ensures { (d : Datatype) → of_page_kind kind ≡ some d → result ≡ datatype_code d }
{
    match kind {
        0x81 => 1,
        0x82 => 2,
        0x83 => 5,
        0x84 => 3,
        _ => 4,
    }
}

// Whether a record's property has a schema entry and its object the entry's datatype. `entries` has the hashes of the schema's URIs.
// Ruled out: a record after the first that is never well typed; an object of any datatype for a property that has an entry.
pub fn well_typed(page: &[u8], at: usize, next: usize, schema: &[u8], entries: &[u16]) -> bool
    requires triple_at { (x : Triple) × TripleAt page.now at x next }
    requires schema_value { is_some (read_schema schema.now) ≡ true }
    requires hashed_entries { HashedEntries schema.now entries.now }
    ensures { (S : Schema) (x : Triple) → read_schema schema.now ≡ some S → TripleAt page.now at x next → result ≡ well_typed S x }
{
    let middle = at + PROPERTY_OFFSET;
    let last = at + OBJECT_OFFSET;
    let slot = slot_of(0x11, &page[middle..last]);
    let hash = hash_of(&slot);
    let Some(wanted) = datatype_of(schema, entries, &page[middle..last], hash) else {
        return false;
    };
    let given = object_code(page[at]);
    has_type(given, wanted)
}
