// The proleptic Gregorian calendar.
#![tactic(auto)]

ghost use Rattle.std.specs.Prelude.{◌≡◌, ◌+◌, ◌-◌, ◌<◌, ◌≤◌, true, cond, pos, ◌+ℤ◌, ◌-ℤ◌, ◌<ℤ◌, unsigned_abs};
ghost use Rattle.calendar.specs.Gregorian.{leap, month_length, months_before, year_start, day_of, Real, valid_date};
ghost use Rattle.calendar.specs.Parts.{leap_days, years_from, Placed};
ghost use Rattle.calendar.specs.Laws.{YearsFollow, ByFormula, OneDate, InOrder};
ghost use Rattle.std.specs.Ordering.{MatchOrdering};

use std::cmp::Ordering;

#[tactic(auto, using(crate::proofs::Floors::rests, crate::proofs::Floors::signs), unfolding(crate::specs::Gregorian::leap))]
fn is_leap(year: i32) -> bool
    ensures { result ≡ leap year }
{
    year % 4 == 0 && (year % 100 != 0 || year % 400 == 0)
}

fn month_length(leap_year: bool, month: u8) -> u8
    ensures { result ≡ month_length leap_year month }
{
    match month {
        2 if leap_year => 29,
        2 => 28,
        4 | 6 | 9 | 11 => 30,
        _ => 31,
    }
}

// An array, since months are numbers: a map would be no plainer.
const BEFORE: [u16; 12] = [0, 31, 59, 90, 120, 151, 181, 212, 243, 273, 304, 334];

// The days of the months before `month`.
fn days_before_month(leap_year: bool, month: u8) -> u16
    requires { (1 ≤ month) × (month ≤ 12) }
    ensures { result ≡ months_before leap_year (month - 1) }
{
    let before = BEFORE[usize::from(month) - 1];
    if leap_year && month > 2 {
        before + 1
    } else {
        before
    }
}

// The leap days of the years 1 to `past`, or, below 0, less those of the years from `past` + 1 to 0.
#[tactic(auto, using(crate::proofs::Floors::floors, crate::proofs::Floors::signs), unfolding(crate::specs::Parts::leap_days))]
fn leap_days(past: i64) -> i64
    requires { unsigned_abs past ≤ 4294967296 }
    ensures value { result ≡ leap_days past }
    ensures bounds { unsigned_abs result ≤ 4294967296 }
{
    past.div_euclid(4) - past.div_euclid(100) + past.div_euclid(400)
}

#[tactic(auto, using(crate::proofs::Floors::signs, crate::proofs::Years::start_is))]
fn year_start(year: i32) -> i64
    ensures value { result ≡ year_start year }
    ensures bounds { unsigned_abs result ≤ 1000000000000 }
{
    let past = i64::from(year) - 1;
    past * 365 + leap_days(past) - 719_162
}

/// No ghost field: any numbers come in from outside, and `is_valid_date` tells the calendar's dates.
#[derive(Clone, Copy, Debug, PartialEq, Eq, PartialOrd, Ord)]
pub struct IsoDate {
    pub year: i32,
    pub month: u8,
    pub day: u8,
}

// The day on which a month begins. That a month is one of twelve is asked in three places: a type of it would be made for one call each.
#[tactic(auto, using(crate::proofs::Floors::signs))]
fn month_start(year: i32, month: u8) -> i64
    requires { (1 ≤ month) × (month ≤ 12) }
    ensures value { result ≡ year_start year +ℤ pos (months_before (leap year) (month - 1)) }
    ensures bounds { unsigned_abs result ≤ 1000000070000 }
{
    year_start(year) + i64::from(days_before_month(is_leap(year), month))
}

/// The day of a date; its year and month are the calendar's, its day may be any.
#[tactic(auto, using(crate::proofs::Floors::signs))]
pub fn epoch_days(date: IsoDate) -> i64
    requires { (1 ≤ date.month) × (date.month ≤ 12) }
    ensures value { result ≡ day_of date }
    ensures bounds { unsigned_abs result ≤ 1000000100000 }
{
    month_start(date.year, date.month) + i64::from(date.day) - 1
}

/// Whether the calendar has the date.
pub fn is_valid_date(date: IsoDate) -> bool
    ensures test { result ≡ valid_date date }
    ensures real { result ≡ true → Real date }
{
    // By hand: with `contains` the search comes to its limit.
    1 <= date.month
        && date.month <= 12
        && 1 <= date.day
        && date.day <= month_length(is_leap(date.year), date.month)
}

// The years before day `n`, and how far into its year it is; day 0 is the first of a 400-year cycle.
fn split_years(n: u32) -> (u32, u32)
    requires { n < 4000000000 }
    ensures { (years_from result.0 + result.1 ≡ n) × (n < years_from (result.0 + 1)) }
{
    let cycle = n / 146_097;
    let in_cycle = n % 146_097;
    let century = (in_cycle / 36_524).min(3);
    let in_century = in_cycle - century * 36_524;
    let four = in_century / 1_461;
    let in_four = in_century % 1_461;
    let year = (in_four / 365).min(3);
    (
        cycle * 400 + century * 100 + four * 4 + year,
        in_four - year * 365,
    )
}

// The month and the day of the month, of a day of a year counted from 0.
fn split_months(leap_year: bool, day: u32) -> (u8, u8)
    requires { day < cond leap_year 366 365 }
    ensures { Placed leap_year day result.0 result.1 }
{
    // The casts lose nothing, which is proved; `try_from` would add a branch that never comes.
    let mut left = day;
    for month in 1..12 {
        let length = u32::from(month_length(leap_year, month));
        if left < length {
            return (month, left as u8 + 1);
        }
        left -= length;
    }
    (12, left as u8 + 1)
}

const CYCLES: i64 = 700;

// The date of a day of a year, years counted from the first of a 400-year cycle and days from 0.
fn date_in_year(years: u32, day: u32) -> IsoDate
    requires small { years < 20000000 }
    requires within { years_from years + day < years_from (years + 1) }
    ensures real { Real result }
    ensures counted { day_of result ≡ pos (years_from years + day) -ℤ pos 102987062 }
{
    // The cast loses nothing, which is proved; `try_from` would add a branch that never comes.
    let year = years as i32 - 279_999;
    let (month, day) = split_months(is_leap(year), day);
    IsoDate { year, month, day }
}

/// The date of a day.
#[tactic(auto, using(crate::proofs::Cycles::years_low, crate::proofs::Floors::signs))]
pub fn civil(days: i64) -> IsoDate
    requires { unsigned_abs days ≤ 100100000 }
    ensures { (Real result) × (day_of result ≡ days) }
{
    // The cast loses nothing, which is proved; `try_from` would add a branch that never comes.
    let from_cycle = (days + 719_162 + 146_097 * CYCLES) as u32;
    let (years, day) = split_years(from_cycle);
    date_in_year(years, day)
}

#[tactic(auto, using(crate::proofs::Order::days_ranked))]
pub fn compare(a: IsoDate, b: IsoDate) -> Ordering
    requires { (Real a) × (Real b) }
    ensures { MatchOrdering result (day_of a <ℤ day_of b) (a ≡ b) (day_of b <ℤ day_of a) }
{
    a.cmp(&b)
}

/// The laws of the calendar that the contracts cite, each proved.
pub fn laws_hold()
    ensures { (YearsFollow) × ((ByFormula) × ((OneDate) × (InOrder))) }
{}
