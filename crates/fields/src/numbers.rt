// Numbers in bytes: little endian, signed ones in two's complement.
ghost use Rattle.std.specs.Prelude.{◌≡◌, ◌+◌, ◌<◌, ◌≤◌, length};
ghost use Rattle.definitions.specs.Limits.{number_width};
ghost use Rattle.definitions.specs.Bytes.{byte, part, word, little, signed, all_zero, same_bytes};
ghost use Rattle.definitions.specs.Terms.{within_limits};

use definitions::NUMBER_WIDTH;

// A byte as an index. Ruled out: a byte that becomes another number; an index above 255.
pub fn index(x: u8) -> usize
    ensures { result ≡ x }
{
    usize::from(x)
}

// A 16-bit number as an index. Ruled out: its low byte alone; an index above 65,535.
pub fn number_index(x: u16) -> usize
    ensures { result ≡ x }
{
    usize::from(x)
}

// The 2-byte number at an offset. Ruled out: the high byte first; one byte alone.
pub fn word_at(s: &[u8], at: usize) -> usize
    requires { at + 1 < length s.now }
    ensures { (result ≡ word s.now at) × (result < 65536) }
{
    usize::from(number_at(s, at))
}

// The same, as wide as it is. Ruled out: the high byte alone; a byte of the next number.
pub fn number_at(s: &[u8], at: usize) -> u16
    requires { at + 1 < length s.now }
    ensures { result ≡ word s.now at }
{
    u16::from_le_bytes([s[at], s[at + 1]])
}

// The 8-byte number at an offset. Ruled out: the high byte first; seven bytes of it.
pub fn long_at(s: &[u8], at: usize) -> u64
    requires { at + number_width ≤ length s.now }
    ensures { result ≡ little (part s.now at number_width) }
{
    u64::from_le_bytes(s[at..at + NUMBER_WIDTH].try_into().unwrap())
}

// The number that v is in two's complement. Ruled out: the sign left out; −1 off for negative ones.
pub fn to_signed(v: u64) -> i64
    ensures { result ≡ signed v }
{
    v.cast_signed()
}

// Whether the number that v is in two's complement is from -low to high.
// Ruled out: a limit off by one; limits that are the same on both sides.
pub fn within(v: u64, low: u64, high: u64) -> bool
    requires { 0 < low }
    ensures { result ≡ within_limits low high (signed v) }
{
    if v <= i64::MAX as u64 {
        return v <= high;
    }
    u64::MAX - v < low
}

// Whether all bytes are zero. All are looked at, so that the compiler takes many at once: `all` takes 8 times as long for 96 bytes, 16 times for 49,344.
// Ruled out: the last byte left out; a stop at the first zero.
pub fn is_zero(s: &[u8]) -> bool
    ensures { result ≡ all_zero s.now }
{
    let mut zero = true;
    for &x in s {
        zero &= x == 0;
    }
    zero
}

// Whether two slices have the same bytes.
// Ruled out: the last byte left out; a slice that begins like the other.
pub fn same_bytes(a: &[u8], b: &[u8]) -> bool
    ensures { result ≡ same_bytes a.now b.now }
{
    a == b
}
