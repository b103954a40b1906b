// The total call: refusals 2 to 7, or how long the script takes.
ghost use Rattle.std.specs.Prelude.{◌≡◌};
ghost use Rattle.definitions.specs.Calls as Calls;

use card::refusals::read_card;
use definitions::{TERM_TABLE_WIDTH, TotalAnswer};
use totals::total_of;

// How many steps a script takes in all, 0 where it has an each block. Types are not asked.
// Ruled out: a total told of a card that is refused; a total that says of every script that it has none.
pub fn total(terms: &[u8], schema: &[u8], script: &[u8]) -> TotalAnswer
    ensures { result ≡ Calls.total terms.now schema.now script.now }
{
    let mut work = [0u8; TERM_TABLE_WIDTH];
    let ready = read_card(terms, schema, script, &mut work)?;
    let steps = total_of(script, ready.count);
    Ok(steps as u32)
}
