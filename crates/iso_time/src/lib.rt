// Times of the day: regulating, balancing, differences and rounding.
#![tactic(auto)]

pub mod inner;

ghost use Rattle.std.specs.Prelude.{◌≡◌};
ghost use Rattle.refusal.specs.Refusals.{answer_of};
ghost use Rattle.iso_time.specs.Proposal.{time, is_valid_time, constrain_time};
ghost use Rattle.iso_time.specs.Paper.{regulate_time, bounded, balance_time_fields, time_difference, rounded_time};

use inner::ValidTime;
use options::{Overflow, Unit};
use refusal::Refusal;
use rounding::RoundingMode;

// A time's fields. Any numbers may stand in them; each call that takes a record checks it.
#[derive(Clone, Copy, Debug, PartialEq, Eq)]
pub struct IsoTime {
    pub hour: u8,
    pub minute: u8,
    pub second: u8,
    pub millisecond: u16,
    pub microsecond: u16,
    pub nanosecond: u16,
}

// A time with the days that were carried.
#[derive(Clone, Copy, Debug, PartialEq, Eq)]
pub struct BalancedTime {
    pub days: i64,
    pub time: IsoTime,
}

// Whole seconds and the nanoseconds below one, neither opposed in sign to the other.
#[derive(Clone, Copy, Debug, PartialEq, Eq)]
pub struct TimeDuration {
    pub seconds: i64,
    pub nanoseconds: i64,
}

// The largest size of a field to be balanced, 2^53 - 1.
const MOST_FIELD: u64 = 9_007_199_254_740_991;

// Whether a field to be balanced is within its bound.
fn is_bounded(x: i64) -> bool
    ensures { result ≡ bounded x }
{
    x.unsigned_abs() <= MOST_FIELD
}

impl IsoTime {
    // Whether every field is within its range.
    #[tactic(auto, unfolding(crate::specs::Proposal::is_valid_time))]
    pub fn is_valid(self) -> bool
        ensures { result ≡ is_valid_time self }
    {
        self.hour <= 23
            && self.minute <= 59
            && self.second <= 59
            && self.millisecond <= 999
            && self.microsecond <= 999
            && self.nanosecond <= 999
    }

    // Each field moved to the nearest that is valid.
    #[tactic(auto, unfolding(crate::specs::Proposal::constrain_time))]
    fn constrained(self) -> IsoTime
        ensures { result ≡ constrain_time self }
    {
        IsoTime {
            hour: self.hour.min(23),
            minute: self.minute.min(59),
            second: self.second.min(59),
            millisecond: self.millisecond.min(999),
            microsecond: self.microsecond.min(999),
            nanosecond: self.nanosecond.min(999),
        }
    }

    // The fields made valid: constrained, or 1 under reject where they are not.
    #[tactic(auto, unfolding(crate::specs::Paper::regulate_time, crate::specs::Inner::checked_time))]
    pub fn new(
        hour: u8,
        minute: u8,
        second: u8,
        millisecond: u16,
        microsecond: u16,
        nanosecond: u16,
        overflow: Overflow,
    ) -> Result<IsoTime, Refusal>
        ensures { answer_of result ≡ regulate_time (time hour minute second millisecond microsecond nanosecond) overflow }
    {
        let fields = IsoTime {
            hour,
            minute,
            second,
            millisecond,
            microsecond,
            nanosecond,
        };
        match overflow {
            Overflow::Constrain => Ok(fields.constrained()),
            Overflow::Reject => Ok(ValidTime::new(fields)?.time),
        }
    }

    // Six fields of any size up to 9,007,199,254,740,991 (else 7) as a carry in days and a time: what is too much in a field is carried
    // into the next, rounded down.
    pub fn balance(
        hour: i64,
        minute: i64,
        second: i64,
        millisecond: i64,
        microsecond: i64,
        nanosecond: i64,
    ) -> Result<BalancedTime, Refusal>
        ensures { answer_of result ≡ balance_time_fields hour minute second millisecond microsecond nanosecond }
    {
        let fields = [hour, minute, second, millisecond, microsecond, nanosecond];
        if !fields.iter().all(|x| is_bounded(*x)) {
            return Err(Refusal::Bound);
        }
        Ok(inner::balance(hour, minute, second, millisecond, microsecond, nanosecond))
    }

    // The span from this time to another: the fields of each (1), then whole seconds and nanoseconds, cut towards zero.
    #[tactic(auto, using(crate::proofs::Checks::diff_laws))]
    pub fn diff(self, other: IsoTime) -> Result<TimeDuration, Refusal>
        ensures { answer_of result ≡ time_difference self other }
    {
        let one = ValidTime::new(self)?;
        let two = ValidTime::new(other)?;
        Ok(inner::span(one.nanoseconds(), two.nanoseconds()))
    }

    // The time rounded at a unit, with the day that may be carried: fields (1), a unit above day (5), an increment that is not allowed (6).
    #[tactic(auto, using(crate::proofs::Checks::round_laws))]
    pub fn round(
        self,
        unit: Unit,
        increment: u64,
        mode: RoundingMode,
    ) -> Result<BalancedTime, Refusal>
        ensures { answer_of result ≡ rounded_time self unit increment mode }
    {
        let time = ValidTime::new(self)?;
        let scale = inner::scale_of(unit).ok_or(Refusal::Unit)?;
        if !scale.allows(increment) {
            return Err(Refusal::Increment);
        }
        Ok(inner::round(time.time, unit, increment, mode))
    }
}
