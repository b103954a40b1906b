// Terms of a type, by the codes of their least types.
ghost use Rattle.std.specs.Prelude.{◌≡◌, length, ℕ, ◌+◌, ◌-◌, ◌≤◌};
ghost use Rattle.codes.specs.TypeCodes.{code_leq};
ghost use Rattle.search.specs.Finding.{skip_types, is_under, types_block, any_under, skip_under};

use crate::Under;

// So many terms are looked at in one go. `Finding` in specs/ has the same number.
const TYPES_BLOCK: usize = 32;

// So many terms are looked at one by one before that: of few sorts, the next of a type is not far.
const NEAR: usize = 4;

// The codes below a type's.
fn under(ty: u8) -> Under
    ensures { (least : ℕ) → is_under result least ≡ code_leq least ty }
{
    let other = match ty {
        3 => 5,
        13 => 11,
        _ => ty,
    };
    Under {
        own: ty,
        other,
        ranges: ty == 1,
    }
}

fn is_under(least: u8, under: Under) -> bool
    ensures { result ≡ is_under under least }
{
    (least == under.own) | ((least == under.other) | (under.ranges & (9 <= least)))
}

// Whether one of a block of terms has a type: without an early exit, so that the compiler makes vector code of it.
fn any_under(leasts: &[u8], below: Under, from: usize) -> bool
    requires { from + types_block ≤ length leasts.now }
    ensures { result ≡ any_under leasts.now below from types_block }
{
    let mut found = false;
    for i in 0..TYPES_BLOCK {
        found |= is_under(leasts[from + i], below);
    }
    found
}

// Past the blocks of terms of which none has a type.
fn past_blocks(leasts: &[u8], below: Under, from: usize, count: usize) -> usize
    requires from_le_count { from ≤ count }
    requires count_in_bounds { count ≤ length leasts.now }
    ensures { (result ≤ count) × (skip_under leasts.now below (count - from) from ≡ skip_under leasts.now below (count - result) result) }
{
    let mut i = from;
    while TYPES_BLOCK <= count - i {
        if any_under(leasts, below, i) {
            return i;
        }
        i += TYPES_BLOCK;
    }
    i
}

fn first_under(leasts: &[u8], below: Under, from: usize, count: usize) -> usize
    requires from_le_count { from ≤ count }
    requires count_in_bounds { count ≤ length leasts.now }
    ensures { result ≡ skip_under leasts.now below (count - from) from }
{
    for i in from..count {
        if is_under(leasts[i], below) {
            return i;
        }
    }
    count
}

// Where the terms next to a number end.
fn near_end(from: usize, count: usize) -> usize
    requires { from ≤ count }
    ensures { (from ≤ result) × (result ≤ count) }
{
    if count - from < NEAR {
        return count;
    }
    from + NEAR
}

// The next term of a type, from a number on: among those near it one by one, then by blocks.
pub fn skip(leasts: &[u8], ty: u8, from: usize, count: usize) -> usize
    requires { count ≤ length leasts.now }
    ensures { result ≡ skip_types leasts.now ty (count - from) from }
{
    if count <= from {
        return from;
    }
    let below = under(ty);
    let near = near_end(from, count);
    let found = first_under(leasts, below, from, near);
    if found < near {
        return found;
    }
    let far = past_blocks(leasts, below, near, count);
    first_under(leasts, below, far, count)
}
