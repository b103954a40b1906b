// The hashes of a schema's URIs, the schema's datatype of a URI, and the least type of a term.
ghost use Rattle.std.specs.Prelude.{◌≡◌, true, ◌*◌, ◌≤◌, length};
ghost use Rattle.definitions.specs.Limits.{schema_width};
ghost use Rattle.definitions.specs.Terms.{uri_text, read_schema};
ghost use Rattle.definitions.specs.Saved.{slot_term};
ghost use Rattle.laws.specs.ReadAnswers.{is_some};
ghost use Rattle.fields.specs.Answers.{code_if, schema_code, least_code};
ghost use Rattle.table.specs.Hashes.{hash_of, uri_slot, HashedEntries};
ghost use Rattle.table.specs.Table.{GoodSlot};

use definitions::{ENTRY_LIMIT, ENTRY_WIDTH, TEXT_WIDTH, URI_WIDTH};
use fields::numbers::same_bytes;
use table::hashes::{find, hash_of};
use table::slots::slot_of;

// The hash of each entry's URI. Ruled out: the hash of the entry beside it; the last entry left out.
pub fn hash_entries(schema: &[u8]) -> [u16; ENTRY_LIMIT]
    requires schema_value { is_some (read_schema schema.now) ≡ true }
    requires schema_len_bound { length schema.now ≤ schema_width }
    ensures { HashedEntries schema.now result }
{
    let entries = schema.len() / ENTRY_WIDTH;
    let mut hashes = [0u16; ENTRY_LIMIT];
    for i in 0..entries {
        let field = i * ENTRY_WIDTH + 1;
        let slot = slot_of(0x11, &schema[field..field + TEXT_WIDTH]);
        hashes[i] = hash_of(&slot);
    }
    hashes
}

// The code of the datatype of the property that a URI field of that hash names.
// Ruled out: the datatype of the next property; that of another property with the same hash.
pub fn datatype_of(schema: &[u8], hashes: &[u16], uri: &[u8], hash: u16) -> Option<u8>
    requires schema_value { is_some (read_schema schema.now) ≡ true }
    requires uri_value { is_some (uri_text uri.now) ≡ true }
    requires hashed_entries { HashedEntries schema.now hashes.now }
    requires hash_value { hash ≡ hash_of (uri_slot uri.now) }
    ensures { result ≡ code_if (schema_code (read_schema schema.now) (uri_text uri.now)) }
{
    let entries = schema.len() / ENTRY_WIDTH;
    let i = find(&hashes[..entries], hash, 0, |i| {
        let field = i * ENTRY_WIDTH + 1;
        same_bytes(&schema[field..field + TEXT_WIDTH], uri)
    })?;
    Some(schema[i * ENTRY_WIDTH + URI_WIDTH])
}

// The code of the least type of a slot's term: it has exactly the types above it.
// Ruled out: any_uri for every URI; a decimal's type for an integer.
pub fn least_type(schema: &[u8], hashes: &[u16], slot: &[u8]) -> u8
    requires schema_value { is_some (read_schema schema.now) ≡ true }
    requires hashed_entries { HashedEntries schema.now hashes.now }
    requires good_slot { GoodSlot slot.now }
    ensures { result ≡ least_code (read_schema schema.now) (slot_term slot.now) }
{
    let kind = slot[0];
    match kind {
        0x11 => {
            let datatype = datatype_of(schema, hashes, &slot[1..URI_WIDTH], hash_of(slot));
            match datatype {
                Some(code) => 8 + code,
                None => 1,
            }
        }
        0x12 => 2,
        0x13 => 5,
        0x14 => 3,
        _ => 4,
    }
}
