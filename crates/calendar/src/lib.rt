// Dates in the Gregorian calendar, by cycles of 400, 100 and 4 years.
#![tactic(auto)]

ghost use Rattle.std.specs.Prelude.{◌≡◌, cond, ◌<◌};
ghost use Rattle.definitions.specs.Calendar.{is_leap, month_lengths, month_from, date_of};
ghost use Rattle.calendar.specs.Dates.{DateIs};

#[derive(Clone, Copy)]
pub struct Date {
    pub year: u64,
    pub month: u64,
    pub day: u64,
}

// A year, and a day of it, counted from 0.
#[derive(Clone, Copy)]
struct YearDay {
    year: u64,
    day: u64,
}

// Every fourth year, of the hundreds every fourth.
#[tactic(auto, unfolding(definitions::specs::Calendar::is_leap))]
fn is_leap(year: u64) -> bool
    ensures { result ≡ is_leap year }
{
    year % 4 == 0 && (year % 100 != 0 || year % 400 == 0)
}

// The year of a day that is counted from 0001-01-01. The last century of a cycle and the last year of four have a day more.
fn year_day(day: u64) -> YearDay
    requires { day < 3652059 }
    ensures { (date_of day ≡ month_from result.year 1 (month_lengths result.year) result.day) × (result.day < 366) }
{
    let cycles = day / 146097;
    let in_cycle = day % 146097;
    let centuries = (in_cycle / 36524).min(3);
    let in_century = in_cycle - centuries * 36524;
    let fours = in_century / 1461;
    let in_four = in_century % 1461;
    let years = (in_four / 365).min(3);
    let year = 1 + 400 * cycles + 100 * centuries + 4 * fours + years;
    YearDay {
        year,
        day: in_four - years * 365,
    }
}

// February's length in a year.
fn february(year: u64) -> u64
    ensures { result ≡ cond (is_leap year) 29 28 }
{
    if is_leap(year) { 29 } else { 28 }
}

// The month and the day of a day of a year.
fn in_year(year: u64, day: u64) -> Date
    requires { day < 4294967296 }
    ensures { DateIs result (month_from year 1 (month_lengths year) day) }
{
    let second = february(year);
    let lengths = [31, second, 31, 30, 31, 30, 31, 31, 30, 31, 30, 31];
    let mut left = day;
    for (passed, &length) in lengths.iter().enumerate() {
        if left < length {
            return Date {
                year,
                month: passed as u64 + 1,
                day: left + 1,
            };
        }
        left -= length;
    }
    Date {
        year,
        month: 13,
        day: left + 1,
    }
}

// The date of a day that is counted from 0001-01-01.
// Ruled out: 1900-02-29 for 1900-03-01; months counted from 0.
pub fn date_of(day: u64) -> Date
    requires { day < 3652059 }
    ensures { DateIs result (date_of day) }
{
    let place = year_day(day);
    in_year(place.year, place.day)
}
