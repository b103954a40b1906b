// The pairs of a block: variables and their written types.
ghost use Rattle.std.specs.Prelude.{◌≡◌, ◌+◌, ◌*◌, ◌≤◌, length};
ghost use Rattle.definitions.specs.Limits.{pair_limit};
ghost use Rattle.definitions.specs.Reading.{written_of, binders_at};
ghost use Rattle.laws.specs.ReadAnswers.{is_some};
ghost use Rattle.reader.specs.Pairs.{pair_ok};

use definitions::{PAIR_LIMIT, VARIABLE_LIMIT};

// Whether a byte is a written type: 0 open, 1 to 5 a datatype, 9 to 13 a range.
fn written_ok(code: u8) -> bool
    ensures { result ≡ is_some (written_of code) }
{
    matches!(code, 0..=5 | 9..=13)
}

// Whether a pair is good: a variable and a written type where it is used, else zero.
fn pair_ok(used: bool, variable: u8, written: u8) -> bool
    ensures { result ≡ pair_ok used variable written }
{
    if used {
        return (variable as usize) < VARIABLE_LIMIT && written_ok(written);
    }
    variable == 0 && written == 0
}

// Whether the four pairs at an offset are good, the first `count` of them used.
// Ruled out: an unused pair left unchecked; a count of 5 taken.
pub fn pairs_ok(s: &[u8], at: usize, count: u8) -> bool
    requires { at + 2 * pair_limit ≤ length s.now }
    ensures { result ≡ is_some (binders_at pair_limit count s.now at) }
{
    let used = count as usize;
    if PAIR_LIMIT < used {
        return false;
    }
    for k in 0..PAIR_LIMIT {
        let pair = at + 2 * k;
        if !pair_ok(k < used, s[pair], s[pair + 1]) {
            return false;
        }
    }
    true
}
