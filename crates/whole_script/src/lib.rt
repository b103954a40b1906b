// A script as a whole (refusal 6): its records from the first byte to the last.
#![tactic(auto)]

ghost use Rattle.std.specs.Prelude.{◌≡◌};
ghost use Rattle.definitions.specs.Reading.{parsed};
ghost use Rattle.laws.specs.ReadAnswers.{is_some};

use definitions::DEPTH_LIMIT;
use reader::script::read_script;

// Whether the whole script is well formed: its records not too deep, no bytes left over.
// Ruled out: records one level too deep taken; a byte after the root's record taken.
pub fn script_ok(script: &[u8], terms: usize) -> bool
    ensures { result ≡ is_some (parsed terms script.now) }
{
    read_script(script, terms, 0, DEPTH_LIMIT) == Some(script.len())
}
