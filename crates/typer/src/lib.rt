// The typer: the types of a script's variables, or that there is no typing, or no greatest one.
#![tactic(auto)]

ghost use Rattle.std.specs.Prelude.{◌≡◌, true, length};
ghost use Rattle.std.proofs.Math.Option.{some};
ghost use Rattle.definitions.specs.Limits.{variable_limit};
ghost use Rattle.definitions.specs.Tree.{Script};
ghost use Rattle.definitions.specs.Reading.{parsed};
ghost use Rattle.definitions.specs.Typing.{written_types, verdict};
ghost use Rattle.laws.specs.ReadAnswers.{is_some};
ghost use Rattle.facts.specs.Codes.{sorts_in, all_written};
ghost use Rattle.facts.specs.Infer.{tables_of};
ghost use Rattle.facts.specs.Walk.{Joined};
ghost use Rattle.facts.specs.Answers.{answer_of};

use definitions::{DEPTH_LIMIT, Refusal, VARIABLE_LIMIT};
use facts::noting::Tables;
use typing::{pairs, walk};

// The tables of a script whose written types stand beside it: `leasts` has the code of each term's least type, `written` a byte
// for each variable.
// Ruled out: the facts of the first block alone; a walk that begins a byte too late.
pub fn tables_of(script: &[u8], leasts: &[u8], written: &[u8]) -> Tables
    requires script_value { is_some (parsed (length leasts.now) script.now) ≡ true }
    requires written_len { length written.now ≡ variable_limit }
    ensures value { (root : Script) → parsed (length leasts.now) script.now ≡ some root → result
        ≡ tables_of (sorts_in leasts.now) (all_written written.now) root }
    ensures joined { Joined result }
{
    let fresh = Tables::fresh();
    let walked = walk::type_script(script, leasts, written, 0, DEPTH_LIMIT, fresh);
    walked.tables
}

// The types of that script.
// Ruled out: no typing for every script; any_uri for every variable.
pub fn type_of_script(
    script: &[u8],
    leasts: &[u8],
    written: &[u8],
) -> Result<[u8; VARIABLE_LIMIT], Refusal>
    requires script_value { is_some (parsed (length leasts.now) script.now) ≡ true }
    requires written_len { length written.now ≡ variable_limit }
    ensures { (root : Script) → parsed (length leasts.now) script.now ≡ some root → result
        ≡ answer_of (all_written written.now) (verdict (sorts_in leasts.now) (all_written written.now) root) }
{
    readoff::read_off(tables_of(script, leasts, written), written)
}

// The types of a script, with the written types of its own pairs.
// Ruled out: the least types that do; an any_uri variable as a property.
pub fn work_out(script: &[u8], leasts: &[u8]) -> Result<[u8; VARIABLE_LIMIT], Refusal>
    requires { is_some (parsed (length leasts.now) script.now) ≡ true }
    ensures { (root : Script) → parsed (length leasts.now) script.now ≡ some root → result
        ≡ answer_of (written_types root) (verdict (sorts_in leasts.now) (written_types root) root) }
{
    let written = pairs::written_types(script, leasts.len());
    type_of_script(script, leasts, &written)
}
