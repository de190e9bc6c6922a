// The days of document 01, for every number that a field can hold and every other.
#![tactic(auto)]

ghost use Rattle.std.specs.Prelude.{◌≡◌, ◌<◌};
ghost use Rattle.iff.specs.Days.{leap_year, days_before, days_in, years_before, day_of, is_day, period, span, in_period, day_in};

// The days before each month of a year that is no leap year.
const BEFORE: [u32; 12] = [0, 31, 59, 90, 120, 151, 181, 212, 243, 273, 304, 334];

// Every fourth year but the hundreds that are not four hundreds.
fn is_leap(year: u64) -> bool
    ensures { result ≡ leap_year year }
{
    if year % 4 != 0 {
        return false;
    }
    if year % 100 != 0 {
        return true;
    }
    year % 400 == 0
}

// The days of the year before a month; months count from 0, as the table does.
fn days_before(month: usize, leap: bool) -> u32
    requires { month < 12 }
    ensures { (result ≡ days_before month leap) × (result < 336) }
{
    let n = BEFORE[month];
    if month < 2 {
        return n;
    }
    if leap {
        return n + 1;
    }
    n
}

// A month's last day: up to where the next month begins, and December ends the year.
fn last_day(month: usize, leap: bool) -> u32
    requires { month < 12 }
    ensures { (result ≡ days_in month leap) × (result < 336) }
{
    if month == 11 {
        return 31;
    }
    days_before(month + 1, leap) - days_before(month, leap)
}

// The days of the years 1600 to 1599 + `years`. 1600 is itself a fourth, a hundred and a four hundred, hence the rounding up.
fn days_of_years(years: u64) -> u64
    requires { years < 8400 }
    ensures { (result ≡ years_before years) × (result < 3100000) }
{
    years * 365 + (years + 3) / 4 + (years + 399) / 400 - (years + 99) / 100
}

// A `u32` as a `u64`, which holds each of them.
fn wide(x: u32) -> u64
    ensures { result ≡ x }
{
    x as u64
}

// The day that a number DDMMYYYY names. The day of the month is all that stands before MMYYYY, so a number of nine digits or more is no day.
pub fn day_of(date: u64) -> Option<u64>
    ensures { result ≡ day_of date }
{
    let year = date % 10000;
    let month = date / 10000 % 100;
    let day = date / 1000000;
    if year < 1600 {
        return None;
    }
    if month == 0 {
        return None;
    }
    if 12 < month {
        return None;
    }
    if day == 0 {
        return None;
    }
    let leap = is_leap(year);
    let m = (month - 1) as usize;
    if wide(last_day(m, leap)) < day {
        return None;
    }
    Some(days_of_years(year - 1600) + wide(days_before(m, leap)) + (day - 1))
}

// Whether a number DDMMYYYY names a day at all.
pub fn is_day(date: u64) -> bool
    ensures { result ≡ is_day (day_of date) }
{
    day_of(date).is_some()
}

// Two days, the first not after the last.
pub fn is_period(first: u64, last: u64) -> bool
    ensures { result ≡ period first last }
{
    let Some(from) = day_of(first) else {
        return false;
    };
    let Some(to) = day_of(last) else {
        return false;
    };
    from <= to
}

// The days from the first to the last, both counted; 0 where they are no days or turn back.
pub fn span(first: u64, last: u64) -> u64
    ensures { result ≡ span first last }
{
    let Some(from) = day_of(first) else {
        return 0;
    };
    let Some(to) = day_of(last) else {
        return 0;
    };
    if to < from {
        return 0;
    }
    to - from + 1
}

// Whether a date lies from the first to the last day, both counted.
pub fn in_period(first: u64, date: u64, last: u64) -> bool
    ensures { result ≡ in_period first date last }
{
    let Some(from) = day_of(first) else {
        return false;
    };
    let Some(day) = day_of(date) else {
        return false;
    };
    let Some(to) = day_of(last) else {
        return false;
    };
    if day < from {
        return false;
    }
    day <= to
}

// The date's place in a span that begins with the first day, from 0.
pub fn day_in(first: u64, date: u64) -> u64
    ensures { result ≡ day_in first date }
{
    let Some(from) = day_of(first) else {
        return 0;
    };
    let Some(day) = day_of(date) else {
        return 0;
    };
    if day < from {
        return 0;
    }
    day - from
}
