// Dates with a time: limits, balancing, rounding, differences, and the record of an instant.
#![tactic(auto)]

pub mod inner;

ghost use Rattle.std.specs.Prelude.{◌≡◌, MatchResult};
ghost use Rattle.refusal.specs.Answer.{given, refused};
ghost use Rattle.refusal.specs.Refusals.{answer_of, refusal_number};
ghost use Rattle.iso_date_time.specs.Proposal.{date_time};
ghost use Rattle.iso_date_time.specs.Paper.{date_time_limits, balance_date_time, round_date_time, date_time_difference, from_instant};

use date_duration::DateDuration;
use inner::ValidDateTime;
use iso_date::IsoDate;
use iso_date::inner::ValidDate;
use iso_time::inner::ValidTime;
use iso_time::{IsoTime, TimeDuration};
use options::Unit;
use refusal::Refusal;
use rounding::RoundingMode;

// A date and a time of its day. Any numbers may stand in the fields; each call that takes a record checks it.
#[derive(Clone, Copy, Debug, PartialEq, Eq)]
pub struct IsoDateTime {
    pub date: IsoDate,
    pub time: IsoTime,
}

// Years to days, and the time beside them.
#[derive(Clone, Copy, Debug, PartialEq, Eq)]
pub struct InternalDurationRecord {
    pub date: DateDuration,
    pub time: TimeDuration,
}

// The difference of two records, and how many candidates for years and months were tried for their dates.
#[derive(Clone, Copy, Debug, PartialEq, Eq)]
pub struct DateTimeDifference {
    pub duration: InternalDurationRecord,
    pub tries: u8,
}

impl IsoDateTime {
    // The record as one that may stand: the fields of its date, then of its time (1), then the limits (3).
    // Inlined, so that the record is not handed back through memory.
    #[inline(always)]
    #[tactic(auto, using(crate::proofs::Moments::limits_ways))]
    pub fn within_limits(self) -> Result<ValidDateTime, Refusal>
        ensures { MatchResult result (λ v. (date_time v.date.date v.time.time ≡ self) × (given tt ≡ date_time_limits self))
            (λ e. refused (refusal_number e) ≡ date_time_limits self) }
    {
        let date = self.date.checked()?;
        let time = self.time;
        if !time.is_valid() {
            return Err(Refusal::Field);
        }
        let time = ValidTime { time };
        if !inner::is_within_limits(date, time) {
            return Err(Refusal::DateTimeLimits);
        }
        Ok(ValidDateTime { date, time })
    }

    // Whether a record may stand at all: the fields of its date, then of its time (1), then the limits (3).
    pub fn check_within_limits(self) -> Result<(), Refusal>
        ensures { answer_of result ≡ date_time_limits self }
    {
        self.within_limits()?;
        Ok(())
    }

    // The record of any year, month and day and six fields of time: their bound (7), then the exact count of days (4). The limits are
    // not tested.
    #[tactic(auto, using(crate::proofs::Moments::balance_ways))]
    pub fn balance(
        year: i32,
        month: i32,
        day: i64,
        hour: i64,
        minute: i64,
        second: i64,
        millisecond: i64,
        microsecond: i64,
        nanosecond: i64,
    ) -> Result<IsoDateTime, Refusal>
        ensures { answer_of result ≡ balance_date_time year month day hour minute second millisecond microsecond nanosecond }
    {
        let balanced = IsoTime::balance(
            hour,
            minute,
            second,
            millisecond,
            microsecond,
            nanosecond,
        )?;
        let date = iso_date::inner::balance_sum(year, month, day, balanced.days)?;
        Ok(IsoDateTime {
            date,
            time: balanced.time,
        })
    }

    // The record rounded at a unit: the record (1, 3), the unit (5), the increment (6); a day that is carried joins the date, and the
    // limits (3) end it.
    #[tactic(auto, using(crate::proofs::Roundings::round_ways))]
    pub fn round(
        self,
        unit: Unit,
        increment: u64,
        mode: RoundingMode,
    ) -> Result<IsoDateTime, Refusal>
        ensures { answer_of result ≡ round_date_time self unit increment mode }
    {
        let record = self.within_limits()?;
        let rounded = self.time.round(unit, increment, mode)?;
        // A day more than one within the limits is in the balanced range: this never refuses.
        let date = record.date.add_days(0, rounded.days)?;
        // A date of a day number and a rounded time have valid fields: they are not tested again.
        let date = ValidDate { date };
        let time = ValidTime { time: rounded.time };
        inner::limited(date, time)
    }

    // From one record to another, under any unit, and how many candidates were tried: each record (1, 3), then the years to days as far
    // as the unit goes and the time beside them. Below day the days join the seconds, and nothing is tried.
    #[tactic(auto, using(crate::proofs::Differences::difference_ways))]
    pub fn diff(self, other: IsoDateTime, unit: Unit) -> Result<DateTimeDifference, Refusal>
        ensures { answer_of result ≡ date_time_difference self other unit }
    {
        let one = self.within_limits()?;
        let two = other.within_limits()?;
        Ok(inner::difference(one, two, unit))
    }

    // The record of an instant, a day and a nanosecond of the day, at an offset in nanoseconds: 7 where one of them is outside its
    // bound.
    pub fn from_epoch_nanos(day: i64, nanosecond: i64, offset: i64) -> Result<IsoDateTime, Refusal>
        ensures { answer_of result ≡ from_instant day nanosecond offset }
    {
        if !inner::is_instant(day, nanosecond) || !inner::is_offset(offset) {
            return Err(Refusal::Bound);
        }
        Ok(inner::from_instant(day, nanosecond, offset))
    }
}
