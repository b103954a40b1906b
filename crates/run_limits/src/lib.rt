// The limits of what a run call is told (11): its budget, and now.
#![tactic(auto)]

ghost use Rattle.std.specs.Prelude.{◌≡◌, ◌&&◌, leb};
ghost use Rattle.definitions.specs.Limits.{budget_limit};
ghost use Rattle.definitions.specs.Bytes.{signed};
ghost use Rattle.definitions.specs.Terms.{is_date_time};

use definitions::{BUDGET_LIMIT, SECONDS_AFTER, SECONDS_BEFORE};
use fields::numbers::within;

// A signed number in two's complement. Ruled out: the sign left out; one off for negative ones.
pub fn bits(n: i64) -> u64
    ensures { signed result ≡ n }
{
    if 0 <= n {
        return n as u64;
    }
    let below = -1 - n;
    18446744073709551615 - (below as u64)
}

// Whether now, in two's complement, is the value of a date_time. Ruled out: a now that is not looked at; the limits of a decimal.
pub fn is_date_time(clock: u64) -> bool
    ensures { result ≡ is_date_time (signed clock) }
{
    within(clock, SECONDS_BEFORE, SECONDS_AFTER)
}

// Whether a budget and now, in two's complement, are within their limits.
// Ruled out: a now that is no date_time taken with a small budget; a budget of any size.
pub fn in_limits(budget: u64, clock: u64) -> bool
    ensures { result ≡ (leb budget budget_limit && is_date_time (signed clock)) }
{
    let few = budget <= BUDGET_LIMIT;
    few & is_date_time(clock)
}
