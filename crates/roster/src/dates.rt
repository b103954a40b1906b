// str of date_times.
use crate::print;
use cases::made;
use std::io::{self, Write};

// A number of seconds for each case.
const SECONDS: [i64; 35] = [
    // The rows of document 01's roster that are not marked M.
    -1,
    951782400,
    // Both ends of the range, and the first and last day of their years.
    -62135596800,
    -62104060801,
    253307606400,
    253402300799,
    // Every fourth year is a leap year: 4, 1972, 2024 and 9996 are, 2023 is not.
    -62035891201,
    -62035891200,
    -62009452800,
    68169600,
    1677628800,
    1709251199,
    253281168000,
    // A hundredth year is not: 100, 1700, 1900 and 2100.
    -59006361601,
    -59006361600,
    -8515238400,
    -2203891201,
    -2203891200,
    4107542399,
    4107542400,
    // But every four hundredth is: 400, 1600, 2000 and 2400, and a cycle of 400 years ends with its year.
    -49539297600,
    -49512816001,
    -49512816000,
    -11670998400,
    951782399,
    951868800,
    978307199,
    978307200,
    13574563200,
    // The Gregorian calendar before 1582 too, the start of the count, and the ends of 32 bits.
    -12219724800,
    0,
    946684799,
    -2147483648,
    2147483647,
    2147483648,
];

// One case: a number of seconds from 1970-01-01T00:00:00Z.
fn show<W: Write>(out: &mut W, seconds: i64) -> io::Result<()> {
    print::word(out, b"str of ")?;
    print::number(out, seconds)?;
    print::word(out, b" s: ")?;
    print::value(out, made::date_time(seconds))?;
    print::byte(out, b'\n')
}

// 35 lines.
pub fn cases<W: Write>(out: &mut W) -> io::Result<()> {
    for seconds in SECONDS {
        show(out, seconds)?;
    }
    Ok(())
}
