// The steps of the sum and of the difference, on naturals. A triple of year, month and day is one number here, its place: 32 days to a
// month and 12 months to a year, so that a day that its month does not have keeps its place, a month further is 32 places and a year
// further 384.
ghost use Rattle.std.specs.Prelude.{◌≡◌, ◌+◌, ◌-◌, ◌*◌, ◌/◌, ◌^◌, ◌<◌, ◌≤◌, nat_abs, ◌+ℤ◌};
ghost use Rattle.refusal.specs.Refusals.{answer_of};
ghost use Rattle.whole.specs.Whole.{◌⊖◌};
ghost use Rattle.iso_date.specs.Proposal.{epoch_days};
ghost use Rattle.iso_date.specs.Paper.{regulate_date};
ghost use Rattle.iso_date.specs.Inner.{day_bias};
ghost use Rattle.date_duration.specs.Proposal.{duration};
ghost use Rattle.date_math.specs.Proposal.{moved_by, directed, rest_start};
ghost use Rattle.date_math.specs.Paper.{clamped_year, difference_of_dates};
ghost use Rattle.date_math.specs.Inner.{place_of, place_bias, years_in, months_in, weeks_in, tries_in};

use crate::DateDifference;
use date_duration::DateDuration;
use iso_date::IsoDate;
use iso_date::inner::{MONTH_BIAS, UpMonth, ValidDate, YEAR_BIAS, balance_up, year_down, year_up};
use options::{Overflow, Unit};
use refusal::Refusal;
use whole::inner::{directed, raise};

const PLACES_PER_MONTH: u64 = 32;

const PLACES_PER_YEAR: u64 = 384;

// A date moved by years and months, the year clamped to 32 bits, and regulated.
pub fn moved(date: IsoDate, years: i64, months: i64, overflow: Overflow) -> Result<IsoDate, Refusal>
    requires { (nat_abs years < 2 ^ 32) × (nat_abs months < 2 ^ 32) }
    ensures { answer_of result ≡ regulate_date (clamped_year (moved_by date years months)) overflow }
{
    let u = raise(i64::from(date.year) + years, YEAR_BIAS);
    let m = raise(i64::from(date.month) + months, MONTH_BIAS);
    let b = balance_up(u, m);
    IsoDate::regulate(year_down(b.year), (b.index + 1) as u8, date.day, overflow)
}

// The place of a date, as a natural. Places are compared where dates would be: their order is that of the triples.
pub fn place(valid: ValidDate) -> u64
    ensures { (place_of valid.date ≡ result ⊖ place_bias) × ((2 ^ 41 ≤ result) × (result < 2 ^ 42)) }
{
    let date = valid.date;
    PLACES_PER_YEAR * year_up(date.year)
        + PLACES_PER_MONTH * u64::from(date.month)
        + u64::from(date.day)
}

// The count that a trial keeps, and how many candidates were compared to find it.
#[derive(Clone, Copy, Debug, PartialEq, Eq)]
pub struct Kept {
    pub count: u64,
    pub tries: u8,
}

// How often a step goes into a gap of places. The candidates are tried from one on that has at most just passed.
fn most_kept(gap: u64, step: u64, first: u64) -> Kept
    requires { ((0 < step) × (step ≤ 384)) × ((step * first ≤ gap + step) × (gap < step * (first + 12))) × (gap < 2 ^ 42) }
    ensures { (result.count ≡ gap / step) × (result.tries ≡ gap / step + 2 - first) }
{
    let mut candidate = first;
    let mut tries = 0;
    // The users named this form, a `loop` that yields what is kept by `break`, for this place.
    let count = loop {
        tries += 1;
        if gap < step * candidate {
            break candidate - 1;
        }
        candidate += 1;
    };
    Kept { count, tries }
}

// What the trial of years and months found, and how many candidates it compared.
#[derive(Clone, Copy, Debug, PartialEq, Eq, Default)]
pub struct Trial {
    pub years: u64,
    pub months: u64,
    pub tries: u8,
}

// The years and months within a gap of places between dates that are so many years apart. Under month the years join the months. Between
// equal dates and under a smaller unit nothing is tried. The years are tried from one less than the dates are apart, which cannot have
// passed, and the months from one on.
#[tactic(auto, unfolding(crate::specs::Inner::years_in, crate::specs::Inner::months_in, crate::specs::Inner::tries_in))]
fn years_and_months(unit: Unit, gap: u64, apart: u64) -> Trial
    requires { ((384 * apart < gap + 384) × (gap < 384 * (apart + 1))) × (gap < 2 ^ 42) }
    ensures { ((result.years ≡ years_in unit gap) × (result.months ≡ months_in unit gap)) ×
        ((384 * result.years + 32 * result.months ≤ gap) × (result.tries ≡ tries_in unit gap apart)) }
{
    let rank = unit.rank();
    if rank > Unit::Month.rank() || gap == 0 {
        return Trial::default();
    }
    let years = most_kept(gap, PLACES_PER_YEAR, apart.saturating_sub(1));
    let months = most_kept(gap - PLACES_PER_YEAR * years.count, PLACES_PER_MONTH, 1);
    let tries = years.tries + months.tries;
    if rank == Unit::Year.rank() {
        return Trial {
            years: years.count,
            months: months.count,
            tries,
        };
    }
    Trial {
        years: 0,
        months: 12 * years.count + months.count,
        tries,
    }
}

// The month reached, forward or backward. So many months lie before every date that the count stays a natural.
// A direction stays a bool here and below: it is the answer of a test, and the definitions' `directed` takes one beside each count.
fn month_reached(forward: bool, from: u64, months: u64) -> u64
    requires { (months ≤ from) × (from < 2 ^ 60) }
    ensures { ((result ⊖ 0) ≡ (from ⊖ 0) +ℤ directed forward months) × (result ≤ from + months) }
{
    if forward {
        from + months
    } else {
        from - months
    }
}

// The day number of the start of the rest, as a natural: the date moved by months, its day constrained.
fn rest_start(valid: ValidDate, forward: bool, months: u64) -> u64
    requires { months < 2 ^ 36 }
    ensures { (epoch_days (rest_start forward valid.date 0 months) ≡ result ⊖ day_bias) × (result < 2 ^ 51) }
{
    let date = valid.date;
    let first = UpMonth::of(date.year, date.month);
    let month = month_reached(forward, 12 * first.year + first.index, months);
    let month = UpMonth {
        year: month / 12,
        index: month % 12,
    };
    month.start() + u64::from(date.day.clamp(1, month.days())) - 1
}

// Under every unit but week the rest stays days.
#[tactic(auto, unfolding(crate::specs::Inner::weeks_in))]
fn weeks_of(unit: Unit, rest: u64) -> u64
    ensures { (result ≡ weeks_in unit rest) × (7 * result ≤ rest) }
{
    if unit.rank() == Unit::Week.rank() {
        rest / 7
    } else {
        0
    }
}

// Counts are worked out as naturals, and the direction is put to them last. The four take the same sign, so that no part opposes another.
fn parts(forward: bool, found: Trial, weeks: u64, days: u64) -> DateDuration
    requires { ((found.years < 2 ^ 63) × (found.months < 2 ^ 63)) × ((weeks < 2 ^ 63) × (days < 2 ^ 63)) }
    ensures { result ≡ duration (directed forward found.years) (directed forward found.months) (directed forward weeks) (directed forward days) }
{
    DateDuration {
        years: directed(forward, found.years),
        months: directed(forward, found.months),
        weeks: directed(forward, weeks),
        days: directed(forward, days),
    }
}

// The difference of two dates.
pub fn difference(one: ValidDate, two: ValidDate, unit: Unit) -> DateDifference
    ensures { result ≡ difference_of_dates one.date two.date unit }
{
    let from = place(one);
    let to = place(two);
    let forward = from <= to;
    let apart = u64::from(two.date.year.abs_diff(one.date.year));
    let found = years_and_months(unit, from.abs_diff(to), apart);
    let start = rest_start(one, forward, 12 * found.years + found.months);
    let rest = start.abs_diff(two.day_up());
    let weeks = weeks_of(unit, rest);
    DateDifference {
        duration: parts(forward, found, weeks, rest - 7 * weeks),
        tries: found.tries,
    }
}
