// The place of a record of kinds 71 to 74 in a script that reads well.
#![tactic(auto)]

ghost use Rattle.std.specs.Prelude.{◌≡◌, true, ◌+◌, ◌<◌};
ghost use Rattle.definitions.specs.Reading.{read_script, parsed};
ghost use Rattle.definitions.specs.Saved.{place_from};
ghost use Rattle.laws.specs.Walks.{Loads, Walked};
ghost use Rattle.laws.specs.ReadAnswers.{is_some};
ghost use Rattle.places.specs.Places.{place_of, own_place, place_at};

use definitions::{DEPTH_LIMIT, QUERY_OFFSET};
use walks::{after_name, after_query};

// The offset after what was walked, and the depth of the record wanted, the root's being 1, if it is there.
#[derive(Clone, Copy)]
pub struct Placed {
    pub next: usize,
    pub place: Option<u8>,
}

// A record's own place where it is the one wanted, else a place below it.
fn own_place(wanted: usize, at: usize, depth: u8, below: Option<u8>) -> Option<u8>
    ensures { result ≡ own_place wanted at depth below }
{
    if wanted == at { Some(depth) } else { below }
}

// The place of a record in the script at an offset, which stands at a depth.
// Ruled out: a second script's records one level too deep; the offset of a query's record found.
pub fn place_from(
    script: &[u8],
    terms: usize,
    at: usize,
    left: u8,
    depth: u8,
    wanted: usize,
) -> Placed
    requires loads { Loads (read_script script.now terms left at) }
    requires left_bound { depth + left < 256 }
    ensures { Walked (λ c. result.place ≡ place_of (place_from depth c wanted)) (read_script script.now terms left at) result.next }
{
    let kind = script[at];
    let first = at + 1;
    let below = left - 1;
    let deeper = depth + 1;
    match kind {
        0x71 => {
            let place = own_place(wanted, at, depth, None);
            Placed { next: first, place }
        }
        0x72 => {
            let next = after_name(script, terms, first, below);
            let c = place_from(script, terms, next, below, deeper, wanted);
            let place = own_place(wanted, at, depth, c.place);
            Placed { place, ..c }
        }
        0x73 => {
            let next = after_query(script, terms, at + QUERY_OFFSET, below);
            let c = place_from(script, terms, next, below, deeper, wanted);
            let place = own_place(wanted, at, depth, c.place);
            Placed { place, ..c }
        }
        _ => {
            let c = place_from(script, terms, first, below, deeper, wanted);
            let d = place_from(script, terms, c.next, below, deeper, wanted);
            let place = own_place(wanted, at, depth, c.place.or(d.place));
            Placed { place, ..d }
        }
    }
}

// The place of a record in a whole script. Ruled out: the root at depth 0; a record in a sequence's second script not found.
pub fn place_at(script: &[u8], terms: usize, wanted: usize) -> Option<u8>
    requires { is_some (parsed terms script.now) ≡ true }
    ensures { result ≡ place_at (parsed terms script.now) wanted }
{
    place_from(script, terms, 0, DEPTH_LIMIT, 1, wanted).place
}
