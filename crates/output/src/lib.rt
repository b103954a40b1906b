// Texts one after the other, into the bytes that a program puts out.
#![tactic(auto)]

ghost use Rattle.std.specs.Prelude.{[], ◌∷◌, ◌+◌, ◌≤◌, length};
ghost use Rattle.definitions.specs.Values.{short_digits, natural_text};
ghost use Rattle.output.specs.Written.{Written, number_room};

// The most digits of a number.
pub const NUMBER_ROOM: usize = 20;

// A text from an offset on. Ruled out: the offset given back as it was; no byte of the text written.
pub fn put_text(text: &[u8], out: &mut [u8], at: usize) -> usize
    requires { at + length text.now ≤ length out.old }
    ensures { Written text.now out.old out.new at result }
{
    let mut i = 0;
    while i < text.len() {
        out[at + i] = text[i];
        i += 1;
    }
    at + text.len()
}

// A byte at an offset. Ruled out: a zero in its place; the offset given back as it was.
pub fn put_byte(b: u8, out: &mut [u8], at: usize) -> usize
    requires { at + 1 ≤ length out.old }
    ensures { Written (b ∷ []) out.old out.new at result }
{
    out[at] = b;
    at + 1
}

// A number's digits, at most left of them, with no needless zero in front.
fn put_digits(n: u64, left: usize, out: &mut [u8], at: usize) -> usize
    requires { at + left ≤ length out.old }
    ensures written { Written (short_digits left n) out.old out.new at result }
    ensures upper_bound { result ≤ at + left }
{
    if left == 0 {
        return at;
    }
    let digit = b'0' + (n % 10) as u8;
    if n < 10 {
        return put_byte(digit, out, at);
    }
    let last = put_digits(n / 10, left - 1, out, at);
    put_byte(digit, out, last)
}

// A number, with no needless zero in front. Ruled out: a digit left out; another last digit.
pub fn put_number(n: u64, out: &mut [u8], at: usize) -> usize
    requires { at + number_room ≤ length out.old }
    ensures written { Written (natural_text n) out.old out.new at result }
    ensures upper_bound { result ≤ at + number_room }
{
    put_digits(n, NUMBER_ROOM, out, at)
}
