// The order of texts: by a rank of their bytes, the end first.
#![tactic(auto)]

ghost use Rattle.std.specs.Prelude.{◌≡◌, T, length};
ghost use Rattle.definitions.specs.Limits.{ranks_width};
ghost use Rattle.definitions.specs.Lists.{every};
ghost use Rattle.definitions.specs.Bytes.{unfilled, same_bytes};
ghost use Rattle.definitions.specs.Terms.{text_byte};
ghost use Rattle.definitions.specs.Values.{rank_in};
ghost use Rattle.definitions.specs.Values as values;

pub mod tables; // rank tables

// Ranks are entry by entry for the bytes from this one on.
const FIRST_BYTE: u8 = 0x20;

// The rank of a byte from 20 to 7E.
fn rank(ranks: &[u8], b: u8) -> u8
    requires ranks_len { length ranks.now ≡ ranks_width }
    requires t { T (text_byte b) }
    ensures { result ≡ rank_in ranks.now b }
{
    ranks[(b - FIRST_BYTE) as usize]
}

// Whether the text in one field comes before the text in another, under ranks.
// Ruled out: the longer text first; a text before itself.
pub fn before(ranks: &[u8], a: &[u8], b: &[u8]) -> bool
    requires ranks_len { length ranks.now ≡ ranks_width }
    requires a_len { length a.now ≡ length b.now }
    requires t { T (every text_byte (unfilled a.now)) }
    requires t_2 { T (every text_byte (unfilled b.now)) }
    ensures { result ≡ values.before (rank_in ranks.now) (unfilled a.now) (unfilled b.now) }
{
    for (&x, &y) in a.iter().zip(b) {
        if y == 0 {
            return false;
        }
        if x == 0 {
            return true;
        }
        let p = rank(ranks, x);
        let q = rank(ranks, y);
        if p != q {
            return p < q;
        }
    }
    false
}

// Whether two fields of one width hold the same text.
// Ruled out: only the first bytes compared; fields apart that differ after the end.
pub fn same(a: &[u8], b: &[u8]) -> bool
    requires { length a.now ≡ length b.now }
    ensures { result ≡ same_bytes (unfilled a.now) (unfilled b.now) }
{
    for (&x, &y) in a.iter().zip(b) {
        if x != y {
            return false;
        }
        if x == 0 {
            return true;
        }
    }
    true
}
