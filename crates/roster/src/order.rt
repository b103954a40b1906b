// Less under the built-in order.
ghost use Rattle.definitions.specs.Alphabet.{built_in};
ghost use Rattle.definitions.specs.Values.{less_pair};
ghost use Rattle.values.specs.Meaning.{meaning, Good, compared, Tells};

use definitions::{RANKS_WIDTH, Truth};
use values::Value;

const BUILT_IN: [u8; RANKS_WIDTH] = [
    0, 63, 64, 65, 66, 67, 68, 69, 70, 71, 72, 73, 74, 75, 76, 77, 1, 2, 3, 4, 5, 6, 7, 8, 9, 10,
    78, 79, 80, 81, 82, 83, 84, 11, 13, 15, 17, 19, 21, 23, 25, 27, 29, 31, 33, 35, 37, 39, 41, 43,
    45, 47, 49, 51, 53, 55, 57, 59, 61, 85, 86, 87, 88, 89, 90, 12, 14, 16, 18, 20, 22, 24, 26, 28,
    30, 32, 34, 36, 38, 40, 42, 44, 46, 48, 50, 52, 54, 56, 58, 60, 62, 91, 92, 93, 94,
];

pub fn less(a: Value, b: Value) -> Truth
    requires good { Good a }
    requires good_2 { Good b }
    ensures { Tells result (compared (less_pair built_in) (meaning a) (meaning b)) }
{
    comparison::less(&BUILT_IN, a, b)
}
