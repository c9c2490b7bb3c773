// Sum and difference of dates.
#![tactic(auto)]

pub mod inner;

ghost use Rattle.std.specs.Prelude.{◌≡◌};
ghost use Rattle.refusal.specs.Refusals.{answer_of};
ghost use Rattle.date_math.specs.Paper.{date_sum, date_difference};

use date_duration::DateDuration;
use iso_date::IsoDate;
use options::{Overflow, Unit};
use refusal::Refusal;

// The difference of two dates, and how many candidates for years and months were tried to find it.
#[derive(Clone, Copy, Debug, PartialEq, Eq)]
pub struct DateDifference {
    pub duration: DateDuration,
    pub tries: u8,
}

// A date moved by a duration: the date's fields (1) and limits (2), the duration (8), then the steps. Years and months first; the date
// that they lead to is regulated (1) and held to the limits (2) before weeks and days are added, which ends with the day count (4).
#[tactic(auto, using(crate::proofs::Sums::sum_ways))]
pub fn add_date_duration(
    date: IsoDate,
    duration: DateDuration,
    overflow: Overflow,
) -> Result<IsoDate, Refusal>
    ensures { answer_of result ≡ date_sum date duration overflow }
{
    date.check_within_limits()?;
    if !duration.is_valid() {
        return Err(Refusal::Duration);
    }
    // The users named this form, `let .. else`, for these two places: a refused part ends the sum, and its number is the answer.
    let regulated = inner::moved(date, duration.years, duration.months, overflow);
    let Ok(start) = regulated else {
        return regulated;
    };
    let Ok(start) = start.within_limits() else {
        return Err(Refusal::DateLimits);
    };
    start.add_days(duration.weeks, duration.days)
}

// The years, months, weeks and days from one date to another, as far as the largest unit goes, and how many candidates were tried: the
// first date's fields (1) and limits (2), the second's, then the unit (5).
#[tactic(auto, using(crate::proofs::Sums::difference_ways))]
pub fn diff_iso_date(one: IsoDate, two: IsoDate, unit: Unit) -> Result<DateDifference, Refusal>
    ensures { answer_of result ≡ date_difference one two unit }
{
    let one = one.within_limits()?;
    let two = two.within_limits()?;
    if unit.rank() > Unit::Day.rank() {
        return Err(Refusal::Unit);
    }
    Ok(inner::difference(one, two, unit))
}
