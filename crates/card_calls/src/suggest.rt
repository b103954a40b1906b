// The suggest call: refusals 2 to 8, or the type to write.
ghost use Rattle.std.specs.Prelude.{◌≡◌};
ghost use Rattle.definitions.specs.Calls as Calls;

use card::refusals::ready_card;
use definitions::{SuggestAnswer, TERM_LIMIT, TERM_TABLE_WIDTH};
use suggestion::suggest::suggest_for;

// The single written type that makes a script acceptable: the lowest open variable for which one exists, and for it the lowest
// type code. Ruled out: a type named for a card that is refused below 9; the types of the constants left out.
pub fn suggest(terms: &[u8], schema: &[u8], script: &[u8]) -> SuggestAnswer
    ensures { result ≡ Calls.suggest terms.now schema.now script.now }
{
    let mut work = [0u8; TERM_TABLE_WIDTH];
    let mut leasts = [0u8; TERM_LIMIT];
    let ready = ready_card(terms, schema, script, &mut work, &mut leasts)?;
    let count = ready.count;
    suggest_for(script, &leasts[..count])
}
