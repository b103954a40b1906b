// A club's own alphabet: whether 95 bytes hold each rank 0 to 94 once (21), which comes before the saved run (10).
#![tactic(auto)]

ghost use Rattle.std.specs.Prelude.{◌≡◌, length};
ghost use Rattle.definitions.specs.Limits.{ranks_width};
ghost use Rattle.definitions.specs.Alphabet.{is_alphabet};
ghost use Rattle.alphabet.specs.Unread.{unread_refusal};

use definitions::{RANKS_WIDTH, Refusal};

// Whether each rank stands once: one pass, which stops at a number that is no rank and at a rank that was met before.
// Ruled out: a list with a rank twice; a list with rank 95.
pub fn is_alphabet(ranks: &[u8]) -> bool
    requires { length ranks.now ≡ ranks_width }
    ensures { result ≡ is_alphabet ranks.now }
{
    let mut met = [false; RANKS_WIDTH];
    for &number in ranks {
        let rank = number as usize;
        if RANKS_WIDTH <= rank {
            return false;
        }
        if met[rank] {
            return false;
        }
        met[rank] = true;
    }
    true
}

// The refusal where no saved run has the bytes. Ruled out: 10 whatever the ranks are; 21 whatever they are.
pub fn unread_refusal(ranks: &[u8]) -> Refusal
    requires { length ranks.now ≡ ranks_width }
    ensures { result ≡ unread_refusal ranks.now }
{
    if is_alphabet(ranks) {
        return Refusal::Unsound;
    }
    Refusal::BadRanks
}
