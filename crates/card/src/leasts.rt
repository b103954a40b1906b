// The least type of each term of a table, by its code.
ghost use Rattle.std.specs.Prelude.{◌≡◌, true, ◌++◌, ◌≤◌, length, take, drop};
ghost use Rattle.definitions.specs.Terms.{read_schema};
ghost use Rattle.definitions.specs.Saved.{terms_in};
ghost use Rattle.laws.specs.ReadAnswers.{is_some};
ghost use Rattle.table.specs.Hashes.{HashedEntries};
ghost use Rattle.table.specs.Table.{HoldsTerms};
ghost use Rattle.card.specs.Leasts.{least_codes};

use definitions::SLOT_WIDTH;
use records::schema::least_type;

// Writes the codes of the least types of a table's terms, in their order, to the front of a list, where the first of them stand already.
// Ruled out: the last term left out; the codes of neighbours swapped.
pub fn least_codes(
    table: &[u8],
    from: usize,
    count: usize,
    schema: &[u8],
    entries: &[u16],
    out: &mut [u8],
)
    requires schema_value { is_some (read_schema schema.now) ≡ true }
    requires hashed_entries { HashedEntries schema.now entries.now }
    requires holds_terms { HoldsTerms table.now count }
    requires count_in_bounds { count ≤ length out.old }
    requires from_le_count { from ≤ count }
    requires out_value { take from out.old ≡ take from (least_codes (read_schema schema.now) (terms_in table.now)) }
    ensures { out.new ≡ least_codes (read_schema schema.now) (terms_in table.now) ++ drop count out.old }
{
    for i in from..count {
        let at = i * SLOT_WIDTH;
        let end = at + SLOT_WIDTH;
        out[i] = least_type(schema, entries, &table[at..end]);
    }
}
