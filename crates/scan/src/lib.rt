// One pattern over the quads of rising keys: the least number that a quad gives the variable sought, from the stretch of keys where the pattern can fit.
#![tactic(auto)]

ghost use Rattle.std.specs.Prelude.{◌≡◌, ◌&&◌, true, false, ℕ, ◌-◌, ◌≤◌, ◌<◌, length, get_or, IfSome};
ghost use Rattle.keys.specs.Keys.{quad_of, keys_from, rows_from, rising as is_rising, Splits};
ghost use Rattle.scan.specs.Scan.{agrees, better as is_better, scan as is_scan};
ghost use Rattle.scan.specs.Codes.{sought_code, key_bits, place_at, places_at, open_at, StretchOf, GivenBy, given_at, row_of, PassedOver};

use keys::{
    GRAPH_REACH, GRAPH_WEIGHT, LAST_KEY, PLACE_LIMIT, PROPERTY_WEIGHT, SUBJECT_WEIGHT, graph_of,
    lower, object_of, property_of, subject_of, upper,
};

// Codes of a pattern's places: a number below SOUGHT is a term's.
pub const SOUGHT: usize = PLACE_LIMIT as usize;

pub const FREE: usize = SOUGHT + 1;

// So many keys are passed over at most before a walk looks whether it is past its stretch.
const STRIDE: usize = 32;

// How many bits from the right a property's number stands in a key, a subject's and a graph's.
const PROPERTY_SHIFT: u64 = 16;

const SUBJECT_SHIFT: u64 = 2 * PROPERTY_SHIFT;

const GRAPH_SHIFT: u64 = 3 * PROPERTY_SHIFT;

// Four numbers: a quad's, or the codes of a pattern's places.
#[derive(Clone, Copy)]
pub struct Four {
    pub graph: usize,
    pub subject: usize,
    pub property: usize,
    pub object: usize,
}

impl Four {
    // The numbers of a key's quad.
    fn of(key: u64) -> Four
        ensures { row_of result ≡ quad_of key }
    {
        Four {
            graph: graph_of(key),
            subject: subject_of(key),
            property: property_of(key),
            object: object_of(key),
        }
    }

    // Whether a quad stands at the four places, where the variable sought is c.
    fn fits(self, row: Four, c: usize) -> bool
        ensures { result ≡ agrees (place_at self.graph) c row.graph
            && (agrees (place_at self.subject) c row.subject && (agrees (place_at self.property) c row.property && agrees (place_at self.object) c row.object)) }
    {
        stands(self.graph, c, row.graph)
            && stands(self.subject, c, row.subject)
            && stands(self.property, c, row.property)
            && stands(self.object, c, row.object)
    }
}

// Where the keys lie that a pattern can fit, both ends within, so that no end is beyond the last key; rises: what their quads give rises with them;
// whole: all of them fit.
#[derive(Clone, Copy)]
pub struct Stretch {
    pub low: u64,
    pub top: u64,
    pub rises: bool,
    pub whole: bool,
}

// Whether a quad's number x stands at a place, where the variable sought is c.
#[tactic(auto, unfolding(crate::specs::Codes::place_at))]
fn stands(code: usize, c: usize, x: usize) -> bool
    ensures { result ≡ agrees (place_at code) c x }
{
    if code == SOUGHT {
        x == c
    } else {
        SOUGHT < code || x == code
    }
}

// The place sought, if there is one, by how many bits from the right its number stands: the first place that a quad gives the variable's number from.
fn given_of(codes: Four) -> Option<u64>
    ensures shift { IfSome result (λ shift. shift < key_bits) }
    ensures given_by { GivenBy codes result }
{
    if codes.graph == SOUGHT {
        Some(GRAPH_SHIFT)
    } else if codes.subject == SOUGHT {
        Some(SUBJECT_SHIFT)
    } else if codes.property == SOUGHT {
        Some(PROPERTY_SHIFT)
    } else if codes.object == SOUGHT {
        Some(0)
    } else {
        None
    }
}

// What a key's quad gives the variable; lo where no place is sought.
#[tactic(auto, unfolding(crate::specs::Codes::given_at, crate::specs::Codes::place_number))]
fn given_at(key: u64, given: Option<u64>, lo: usize) -> usize
    requires { IfSome given (λ shift. shift < key_bits) }
    ensures { result ≡ given_at given lo key }
{
    match given {
        Some(shift) => ((key >> shift) % PLACE_LIMIT) as usize,
        None => lo,
    }
}

// The best so far, or what the key's quad gives, where it stands and is less. Here and in the walks tests are joined by | and &: a key costs one branch.
fn better(key: u64, codes: Four, given: Option<u64>, lo: usize, best: usize) -> usize
    requires shift_lt_key_bits { IfSome given (λ shift. shift < key_bits) }
    requires given_by { GivenBy codes given }
    ensures { result ≡ is_better (places_at codes) lo best (quad_of key) }
{
    let c = given_at(key, given, lo);
    if (c < lo) | (best <= c) {
        return best;
    }
    if codes.fits(Four::of(key), c) {
        c
    } else {
        best
    }
}

// The next key from a place on that a test picks; to where there is none.
fn next_where<F: Fn(u64) -> bool>(keys: &[u64], from: usize, to: usize, picks: F) -> usize
    requires from_le_to { from ≤ to }
    requires to_in_bounds { to ≤ length keys.now }
    requires callable { F.IsAlwaysCallable picks }
    ensures low { from ≤ result }
    ensures high { result ≤ to }
    ensures passed { (j : ℕ) → from ≤ j → j < result → F.post picks (get_or keys.now j 0) false }
{
    for i in from..to {
        if picks(keys[i]) {
            return i;
        }
    }
    to
}

// The next key from a place on that may be better than the best so far, or at most a stride further. One known place is tested: the subject where the graph
// does not tell where it stands, else the object or the property; with the property also the object, where that is what a quad gives.
fn next_with(
    keys: &[u64],
    from: usize,
    codes: Four,
    given: Option<u64>,
    lo: usize,
    best: usize,
) -> usize
    requires from_in_bounds { from ≤ length keys.now }
    requires given_by { GivenBy codes given }
    requires lo_le_sought_code { lo ≤ sought_code }
    requires best_le_sought_code { best ≤ sought_code }
    ensures { (from ≤ result) × (result ≤ length keys.now) × PassedOver keys.now codes lo best from result }
{
    let to = from + STRIDE.min(keys.len() - from);
    if SOUGHT <= codes.graph && codes.subject < SOUGHT {
        return next_where(keys, from, to, |key| subject_of(key) == codes.subject);
    }
    if codes.object < SOUGHT {
        return next_where(keys, from, to, |key| object_of(key) == codes.object);
    }
    if SOUGHT <= codes.property {
        return from;
    }
    if given == Some(0) {
        let base = codes.property as u64 * PROPERTY_WEIGHT;
        let low = base + lo as u64;
        let high = base + best as u64;
        return next_where(keys, from, to, |key| {
            (low <= key % SUBJECT_WEIGHT) & (key % SUBJECT_WEIGHT < high)
        });
    }
    next_where(keys, from, to, |key| property_of(key) == codes.property)
}

// The stretch of a place that is not known, after known ones: from the floor on where it is sought; whole where the places after it are free.
fn opened(code: usize, base: u64, floor: u64, top: u64, whole: bool) -> Stretch
    ensures { result ≡ open_at code base floor top whole }
{
    if code == SOUGHT {
        return Stretch {
            low: floor,
            top,
            rises: true,
            whole,
        };
    }
    Stretch {
        low: base,
        top,
        rises: false,
        whole,
    }
}

// The stretch of a pattern: by the known places that stand first, and the next one; whether it is whole takes no branch.
fn stretch_of(codes: Four, lo: usize) -> Stretch
    requires { lo < sought_code }
    ensures { StretchOf codes lo result }
{
    let from = lo as u64;
    if SOUGHT <= codes.graph {
        let floor = from * GRAPH_WEIGHT;
        let whole = (SOUGHT < codes.subject)
            & ((SOUGHT < codes.property) & (SOUGHT < codes.object));
        return opened(codes.graph, 0, floor, LAST_KEY, whole);
    }
    let graph = codes.graph as u64 * GRAPH_WEIGHT;
    if SOUGHT <= codes.subject {
        let floor = graph + from * SUBJECT_WEIGHT;
        let top = graph + GRAPH_REACH;
        let whole = (SOUGHT < codes.property) & (SOUGHT < codes.object);
        return opened(codes.subject, graph, floor, top, whole);
    }
    let subject = graph + codes.subject as u64 * SUBJECT_WEIGHT;
    if SOUGHT <= codes.property {
        let floor = subject + from * PROPERTY_WEIGHT;
        let top = subject + (SUBJECT_WEIGHT - 1);
        return opened(codes.property, subject, floor, top, SOUGHT < codes.object);
    }
    let property = subject + codes.property as u64 * PROPERTY_WEIGHT;
    if SOUGHT <= codes.object {
        let floor = property + from;
        let top = property + (PROPERTY_WEIGHT - 1);
        return opened(codes.object, property, floor, top, true);
    }
    let object = property + codes.object as u64;
    Stretch {
        low: object,
        top: object,
        rises: false,
        whole: true,
    }
}

// The number that the first key from a place on gives, in a stretch all of whose keys fit; end where it has none, or gives none below.
fn first_in(keys: &[u64], from: usize, part: Stretch, codes: Four, lo: usize, end: usize) -> usize
    requires splits { Splits keys.now (length keys.now) part.low from }
    requires keys_value { is_rising keys.now ≡ true }
    requires stretch_of { StretchOf codes lo part }
    requires whole_value { part.whole ≡ true }
    ensures { result ≡ is_scan (places_at codes) lo end (rows_from (length keys.now - from) keys.now from) }
{
    if keys.len() <= from || part.top < keys[from] {
        return end;
    }
    end.min(given_at(keys[from], given_of(codes), lo))
}

// The least number from lo on that a key from a place on gives; end where none does. Above the top none fits, and where what they give rises the first that fits gives it.
fn least_in(keys: &[u64], from: usize, part: Stretch, codes: Four, lo: usize, end: usize) -> usize
    requires from_in_bounds { from ≤ length keys.now }
    requires keys_value { is_rising keys.now ≡ true }
    requires stretch_of { StretchOf codes lo part }
    requires lo_le_sought_code { lo ≤ sought_code }
    requires end_le_sought_code { end ≤ sought_code }
    ensures { result ≡ is_scan (places_at codes) lo end (rows_from (length keys.now - from) keys.now from) }
{
    let given = given_of(codes);
    let mut best = end;
    let mut i = from;
    while i < keys.len() {
        let key = keys[i];
        if part.top < key {
            return best;
        }
        best = better(key, codes, given, lo, best);
        if (best <= lo) | (part.rises & (best < end)) {
            return best;
        }
        i = next_with(keys, i + 1, codes, given, lo, best);
    }
    best
}

// The least number by one stretch.
fn least_by_stretch(keys: &[u64], codes: Four, lo: usize, end: usize) -> usize
    requires keys_value { is_rising keys.now ≡ true }
    requires end_le_sought_code { end ≤ sought_code }
    ensures { result ≡ is_scan (places_at codes) lo end (rows_from (length keys.now) keys.now 0) }
{
    if end <= lo {
        return end;
    }
    let part = stretch_of(codes, lo);
    let from = lower(keys, keys.len(), part.low);
    if part.whole {
        first_in(keys, from, part, codes, lo, end)
    } else {
        least_in(keys, from, part, codes, lo, end)
    }
}

// The same where the graph is free: graph by graph, each of them known.
fn least_by_graph(keys: &[u64], codes: Four, lo: usize, end: usize) -> usize
    requires keys_value { is_rising keys.now ≡ true }
    requires end_le_sought_code { end ≤ sought_code }
    requires sought_code_lt_graph { sought_code < codes.graph }
    ensures { result ≡ is_scan (places_at codes) lo end (rows_from (length keys.now) keys.now 0) }
{
    let mut best = end;
    let mut i = 0;
    while i < keys.len() {
        let graph = graph_of(keys[i]);
        best = least_by_stretch(keys, Four { graph, ..codes }, lo, best);
        let top = graph as u64 * GRAPH_WEIGHT + GRAPH_REACH;
        i = upper(keys, keys.len(), top);
    }
    best
}

// The least number from lo on that one of the first n quads gives the variable sought; end where none does.
// Ruled out: a stretch that ends one quad early; a variable that stands twice in the pattern taken from one place only.
pub fn least(keys: &[u64], n: usize, codes: Four, lo: usize, end: usize) -> usize
    requires n_in_bounds { n ≤ length keys.now }
    requires keys_value { is_rising (keys_from n keys.now 0) ≡ true }
    requires end_le_sought_code { end ≤ sought_code }
    ensures { result ≡ is_scan (places_at codes) lo end (rows_from n keys.now 0) }
{
    let keys = &keys[..n];
    if SOUGHT < codes.graph && codes.subject <= SOUGHT {
        least_by_graph(keys, codes, lo, end)
    } else {
        least_by_stretch(keys, codes, lo, end)
    }
}
