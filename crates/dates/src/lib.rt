// Dates: "eight digits YYYYMMDD, a real Gregorian day in the years 1800 to 2199".
#![tactic(auto)]

ghost use Rattle.std.specs.Prelude.{◌≡◌, true, ◌&&◌, ◌+◌, ◌-◌, ◌*◌, ◌≤◌, ◌<◌, length, get_or};
ghost use Rattle.house.specs.Text.{within, digits};
ghost use Rattle.dates.specs.Dates.{first_year, last_year, is_leap, days_in, is_day, is_end, day_of, dated_of, ended_of};

use house::all_digits;

// A date, as the number YYYYMMDD, or an end that is open, as the number OPEN.
#[derive(Clone, Copy)]
pub struct Date {
    pub number: u32,
}

// Whether a year of the Gregorian calendar has a 29th of February.
fn is_leap(y: u32) -> bool
    ensures { result ≡ is_leap y }
{
    y % 4 == 0 && (y % 100 != 0 || y % 400 == 0)
}

// How many days a month of a year has.
fn days_in(y: u32, m: u32) -> u32
    ensures { result ≡ days_in y m }
{
    match m {
        2 => { if is_leap(y) { 29 } else { 28 } }
        4 | 6 | 9 | 11 => 30,
        _ => 31,
    }
}

// Every month has so many days.
const SHORTEST: u32 = 28;

// Whether a day of a month of a year is real, and in the years of a date.
fn is_real(y: u32, m: u32, d: u32) -> bool
    ensures { result ≡ (within first_year last_year y && within 1 12 m && within 1 (days_in y m) d) }
{
    if y < Date::FIRST_YEAR || Date::LAST_YEAR < y || m < 1 || 12 < m || d < 1 {
        return false;
    }
    d <= SHORTEST || d <= days_in(y, m)
}

// What two bytes 0 come to, read as digits are.
const ZEROS: u32 = 528;

// The number that the two digits at a place write.
fn two_digits(text: &[u8], i: usize) -> u32
    requires i_in_bounds { i + 1 < length text.now }
    requires text_value { digits text.now ≡ true }
    ensures value { result ≡ (get_or text.now i 0 - 48) * 10 + (get_or text.now (i + 1) 0 - 48) }
    ensures upper_bound { result ≤ 99 }
{
    u32::from(text[i]) * 10 + u32::from(text[i + 1]) - ZEROS
}

// The date that eight digits write.
fn eight_digits(text: &[u8]) -> Option<Date>
    requires text_len { length text.now ≡ 8 }
    requires text_value { digits text.now ≡ true }
    ensures { result ≡ dated_of text.now }
{
    let y = two_digits(text, 0) * 100 + two_digits(text, 2);
    let m = two_digits(text, 4);
    let d = two_digits(text, 6);
    if is_real(y, m, d) {
        Some(Date {
            number: y * 10000 + m * 100 + d,
        })
    } else {
        None
    }
}

impl Date {
    // Eight digits.
    pub const WIDTH: usize = 8;

    // "in the years 1800 to 2199"
    pub const FIRST_YEAR: u32 = 1800;

    pub const LAST_YEAR: u32 = 2199;

    // "99999999 for open"
    pub const OPEN: u32 = 99999999;

    // Whether a number is a date: a real day in those years.
    pub fn is_day(n: u32) -> bool
        ensures { result ≡ is_day n }
    {
        let y = n / 10000;
        let m = n / 100 % 100;
        let d = n % 100;
        is_real(y, m, d)
    }

    // The date of a number, as today comes.
    pub fn of_number(n: u32) -> Option<Date>
        ensures { result ≡ day_of n }
    {
        if Self::is_day(n) {
            Some(Date { number: n })
        } else {
            None
        }
    }

    // The date that a field's text writes.
    pub fn of(text: &[u8]) -> Option<Date>
        ensures { result ≡ dated_of text.now }
    {
        if text.len() != Self::WIDTH {
            return None;
        }
        if all_digits(text) {
            eight_digits(text)
        } else {
            None
        }
    }

    // The date that an end writes, OPEN for one that is open.
    pub fn end_of(text: &[u8]) -> Option<Date>
        ensures { result ≡ ended_of text.now }
    {
        if house::same(text, b"99999999") {
            return Some(Date { number: Self::OPEN });
        }
        Self::of(text)
    }

    // Whether a text is an end: a date, or open.
    pub fn is_end(text: &[u8]) -> bool
        ensures { result ≡ is_end text.now }
    {
        matches!(Self::end_of(text), Some(_))
    }
}
