// Names in the script's bytes, and their codes.
ghost use Rattle.std.specs.Prelude.{◌≡◌, length, ◌<◌};
ghost use Rattle.definitions.specs.Tree.{var, Query};
ghost use Rattle.definitions.specs.Reading.{four_of, read_name};
ghost use Rattle.laws.specs.Walks.{Loads};
ghost use Rattle.laws.specs.Walks.{Walked};
ghost use Rattle.laws.specs.Sound.{NameBounded};
ghost use Rattle.query.specs.Codes.{code_of, Coded};
ghost use Rattle.definitions.specs.Limits.{variable_limit};
ghost use Rattle.scan.specs.Codes.{sought_code};

use crate::{NameRead, NamesRead};
use definitions::VARIABLE_LIMIT;
use fields::numbers;
use scan::{FREE, Four, SOUGHT};

// What is known of a variable, as the code of its place; where v is the variable sought.
fn variable_code(known: &[usize], v: usize, w: usize) -> usize
    requires { w < length known.now }
    ensures { result ≡ code_of known.now v (var w) }
{
    if w == v {
        return SOUGHT;
    }
    let code = known[w];
    if code < SOUGHT {
        return code;
    }
    FREE
}

// The name at an offset. Ruled out: a constant's high byte left out; the variable sought taken for a known one.
pub fn name_at(
    script: &[u8],
    loaded: usize,
    at: usize,
    left: u8,
    known: &[usize],
    v: usize,
) -> NameRead
    requires loads { Loads (read_name script.now loaded left at) }
    requires known_len { length known.now ≡ variable_limit }
    ensures { Walked (λ n. (result.code ≡ code_of known.now v n) × NameBounded sought_code n) (read_name script.now loaded left at) result.next }
{
    let kind = script[at];
    let first = at + 1;
    if kind == 0x31 {
        let w = numbers::index(script[first]);
        let code = variable_code(known, v, w);
        let next = at + 2;
        return NameRead { next, code };
    }
    let code = numbers::word_at(script, first);
    let next = at + 3;
    NameRead { next, code }
}

// A pattern's four names. Ruled out: subject and object exchanged; the same name read twice.
pub fn names_at(
    script: &[u8],
    loaded: usize,
    at: usize,
    left: u8,
    known: &[usize],
    v: usize,
) -> NamesRead
    requires loads { Loads (four_of Query.pattern (read_name script.now loaded left) at) }
    requires known_len { length known.now ≡ variable_limit }
    ensures { Walked (Coded known.now v result.codes) (four_of Query.pattern (read_name script.now loaded left) at) result.next }
{
    let g = name_at(script, loaded, at, left, known, v);
    let s = name_at(script, loaded, g.next, left, known, v);
    let p = name_at(script, loaded, s.next, left, known, v);
    let o = name_at(script, loaded, p.next, left, known, v);
    let codes = Four {
        graph: g.code,
        subject: s.code,
        property: p.code,
        object: o.code,
    };
    NamesRead {
        next: o.next,
        codes,
    }
}
