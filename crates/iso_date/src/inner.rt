// Years and days as naturals. A year is counted from -8,000,000,000, a multiple of 400, so that leap years fall as in year 0, and a
// day from the first day of that year; every year that a call can reach, and every day count that matters, is then a natural.
pub mod month;
pub mod valid;

ghost use Rattle.std.specs.Prelude.{◌≡◌, true, cond, ◌+◌, ◌-◌, ◌<◌, ◌≤◌, ◌^◌, get_or, pos, neg_ℤ, nat_abs, ◌+ℤ◌, ◌-ℤ◌, ◌*ℤ◌};
ghost use Rattle.refusal.specs.Refusals.{answer_of};
ghost use Rattle.whole.specs.Whole.{◌⊖◌, clamp_z};
ghost use Rattle.iso_date.specs.Proposal.{leap_year, month_lengths, iso_days_in_month, days_before_month, day_from_month, is_valid_iso_date};
ghost use Rattle.iso_date.specs.Proposal.{epoch_days, epoch_days_to_iso_date, iso_date_within_limits, balanced_year, balanced_month, clamp_to};
ghost use Rattle.iso_date.specs.Paper.{balanced, day_to_date, balance_date};
ghost use Rattle.iso_date.specs.Inner.{year_bias, month_bias, day_bias, year_start, YearHolds, MonthHolds, Balances};

use crate::IsoDate;
pub use month::UpMonth;
use refusal::Refusal;
pub use valid::ValidDate;
use whole::inner::{lower, raise};

// What a year is raised by.
pub const YEAR_BIAS: u64 = 8_000_000_000;
// The days from the first day of year -YEAR_BIAS to 1970-01-01: 20,000,000 times 146,097 days of 400 years, and 719,528.
pub const DAY_BIAS: u64 = 2_921_940_719_528;

// As many months as lie in so many years, so that a month of 32 bits, or one moved by a duration, is a natural.
pub const MONTH_BIAS: u64 = 4_800_000_000;

const MONTH_BIAS_YEARS: u64 = 400_000_000;

// A day count is balanced up to this size.
const MOST_BALANCED: i64 = 100_000_001;

// A date is within the limits from the first of these days to the last.
const FIRST_WITHIN: i64 = -100_000_001;

const LAST_WITHIN: i64 = 100_000_000;

// The lengths of the months of a common year. A table, which the users asked for.
const MONTH_LENGTHS: [u8; 12] = [31, 28, 31, 30, 31, 30, 31, 31, 30, 31, 30, 31];
// The days of a common year before each of its months. A table, as that of their lengths is.
const DAYS_BEFORE: [u16; 12] = [0, 31, 59, 90, 120, 151, 181, 212, 243, 273, 304, 334];

// A year as a natural, which the leap rule takes as it takes the year itself.
#[tactic(auto, using(whole::proofs::Edges::raises))]
pub fn year_up(year: i32) -> u64
    ensures { (year ≡ result ⊖ year_bias) × ((result < 2 ^ 31 + year_bias) × (year_bias ≤ result + 2 ^ 31)) }
{
    raise(i64::from(year), YEAR_BIAS)
}

// A month of any number, counted from 1, as a natural.
#[tactic(auto, using(whole::proofs::Edges::raises))]
pub fn month_up(month: i32) -> u64
    ensures { (month ≡ result ⊖ month_bias) × ((result < 2 ^ 31 + month_bias) × (month_bias ≤ result + 2 ^ 31)) }
{
    raise(i64::from(month), MONTH_BIAS)
}

// A year given back as 32 bits, clamped to them.
#[tactic(auto, using(whole::proofs::Edges::lowers, crate::proofs::Answers::year_clamped))]
pub fn year_down(u: u64) -> i32
    ensures { result ≡ clamp_z (u ⊖ year_bias) (neg_ℤ (pos (2 ^ 31))) (pos (2 ^ 31 - 1)) }
{
    let u = u.clamp(YEAR_BIAS - 2_147_483_648, YEAR_BIAS + 2_147_483_647);
    lower(u, YEAR_BIAS) as i32
}

// The days before year u: 365 for each year, and a day more for each leap year. Year 0 is one, so of the years before u the multiples
// of d are as many as u / d, rounded up, which is (u + d - 1) / d: those of 4, less those of 100, and those of 400 again.
#[tactic(auto, using(crate::proofs::Years::fewer), unfolding(crate::specs::Inner::year_start))]
pub fn year_start(u: u64) -> u64
    requires { u < 2 ^ 40 }
    ensures { (result ≡ year_start u) × (result < 2 ^ 49) }
{
    365 * u + (u + 3) / 4 - (u + 99) / 100 + (u + 399) / 400
}

// Whether year u is a leap year. All three tests are made, so that nothing branches.
#[tactic(auto, using(crate::proofs::Years::leap_test))]
pub fn is_leap(u: u64) -> bool
    ensures { result ≡ leap_year (u ⊖ year_bias) }
{
    (u % 4 == 0) & ((u % 100 != 0) | (u % 400 == 0))
}

// The length of month m, counted from 1. February alone asks whether the year is a leap year.
pub fn month_days(leap: bool, m: u8) -> u8
    requires { (1 ≤ m) × (m ≤ 12) }
    ensures { (result ≡ get_or (month_lengths leap) (m - 1) 0) × (result ≤ 31) }
{
    if m == 2 {
        MONTH_LENGTHS[1] + u8::from(leap)
    } else {
        MONTH_LENGTHS[(m - 1) as usize]
    }
}

// The days of a year before month i, counted from 0.
#[tactic(auto, using(crate::proofs::Tables::before_sum))]
pub fn days_before(leap: bool, i: u64) -> u64
    requires { i < 12 }
    ensures { (result ≡ days_before_month leap i) × (result < 336) }
{
    u64::from(DAYS_BEFORE[i as usize]) + u64::from(leap & (2 <= i))
}

// The year that holds day n, from the mean length of a year, 146,097 / 400 days. A year starts at most 99 / 100 of a day before its
// start by the mean (the centuries' part of `year_start`), so that by day n + 1 its start by the mean has come too: the estimate is never
// early. It starts at most 3 / 4 + 399 / 400 of a day after that (the parts by 4 and 400), so that the estimate is at most a year late.
#[tactic(auto, using(crate::proofs::Years::year_exact, crate::proofs::Years::year_late))]
pub fn year_of(n: u64) -> u64
    requires { (n < 2 ^ 48) × (146097 ≤ n) }
    ensures { YearHolds n result }
{
    let e = (400 * n + 400) / 146097;
    if n < year_start(e) { e - 1 } else { e }
}

// The month, counted from 0, that holds day n of a year: each month is at most 31 days long and the first eleven together lack less
// than a month to that, so it is n / 31 or the one after.
#[tactic(auto, using(crate::proofs::Months::picked_next, crate::proofs::Months::picked, crate::proofs::Months::picked_last))]
pub fn month_of(leap: bool, n: u64) -> u64
    requires { n < cond leap 366 365 }
    ensures { MonthHolds leap n result }
{
    let i = n / 31;
    if i < 11 && days_before(leap, i + 1) <= n {
        i + 1
    } else {
        i
    }
}

// The date of day n, a natural.
#[tactic(auto, using(crate::proofs::Years::in_biased_year, crate::proofs::Months::month_day_small))]
pub fn civil(n: u64) -> IsoDate
    requires { (day_bias - 100000001 ≤ n) × (n ≤ day_bias + 100000001) }
    ensures { result ≡ epoch_days_to_iso_date (n ⊖ day_bias) }
{
    let u = year_of(n);
    let leap = is_leap(u);
    let day = n - year_start(u);
    let i = month_of(leap, day);
    IsoDate {
        year: lower(u, YEAR_BIAS) as i32,
        month: (i + 1) as u8,
        day: (day - days_before(leap, i) + 1) as u8,
    }
}

// Twelve months carried on as a year: month 13 is the next January, month 0 the December before.
pub fn balance_up(u: u64, m: u64) -> UpMonth
    requires { ((400000000 ≤ u) × (u < 2 ^ 39)) × ((1 ≤ m) × (m < 2 ^ 39)) }
    ensures { Balances u m result.year result.index }
{
    let k = m - 1;
    UpMonth {
        year: u + k / 12 - MONTH_BIAS_YEARS,
        index: k % 12,
    }
}

// The month that a month of any number is.
pub fn balance(year: i32, month: i32) -> UpMonth
    ensures { (result.year ⊖ year_bias ≡ balanced_year year month) × (result.index + 1 ≡ balanced_month month) }
{
    balance_up(year_up(year), month_up(month))
}

// The length of a month of a year.
pub fn days_in_month(year: i32, month: u8) -> u8
    requires { (1 ≤ month) × (month ≤ 12) }
    ensures { (result ≡ iso_days_in_month year month) × ((1 ≤ result) × (result ≤ 31)) }
{
    month_days(is_leap(year_up(year)), month)
}

// Whether a day count is in the balanced range.
#[tactic(auto, unfolding(crate::specs::Paper::balanced))]
pub fn is_balanced(day: i64) -> bool
    ensures { result ≡ balanced day }
{
    (-MOST_BALANCED..=MOST_BALANCED).contains(&day)
}

// The date of any year, month and day with a carry of days, by the exact day count; 4 past the balanced range. No month's first day
// (below 2^50 in size) and no carry (below 2^52) brings a sum that leaves 64 bits back into that range.
pub fn balance_sum(year: i32, month: i32, day: i64, carry: i64) -> Result<IsoDate, Refusal>
    requires { nat_abs carry < 2 ^ 52 }
    ensures { answer_of result ≡ balance_date year month (day +ℤ carry) }
{
    let before = lower(balance(year, month).start(), DAY_BIAS) + (carry - 1);
    let count = day.checked_add(before).ok_or(Refusal::DayCount)?;
    IsoDate::from_epoch_days(count)
}
