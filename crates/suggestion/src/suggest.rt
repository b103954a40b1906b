// What is suggested for a script that reads well: nothing where it is accepted as it is, refusal 8, or the type to write.
ghost use Rattle.std.specs.Prelude.{◌≡◌, true, length};
ghost use Rattle.std.proofs.Math.Option.{some};
ghost use Rattle.definitions.specs.Tree.{Script};
ghost use Rattle.definitions.specs.Reading.{parsed};
ghost use Rattle.definitions.specs.Typing.{written_types};
ghost use Rattle.definitions.specs.Calls.{suggest_for};
ghost use Rattle.laws.specs.ReadAnswers.{is_some};
ghost use Rattle.facts.specs.Codes.{sorts_in};

use definitions::{Refusal, SuggestAnswer, Suggested};
use lowest_type::lowest;
use readoff::read_off;
use typer::tables_of;
use typing::pairs::written_types;

// `leasts` has the code of each term's least type.
// Ruled out: a type named for a script that is accepted as it is; a script of no typing told that no single type would do.
pub fn suggest_for(script: &[u8], leasts: &[u8]) -> SuggestAnswer
    requires { is_some (parsed (length leasts.now) script.now) ≡ true }
    ensures { (root : Script) → parsed (length leasts.now) script.now ≡ some root → result
        ≡ suggest_for (sorts_in leasts.now) (written_types root) root }
{
    let written = written_types(script, leasts.len());
    let tables = tables_of(script, leasts, &written);
    match read_off(tables, &written) {
        Ok(_) => Ok(Suggested::Accepted),
        Err(Refusal::NoGreatest) => Ok(lowest(tables, &written)),
        Err(refusal) => Err(refusal),
    }
}
