// Date durations: years, months, weeks and days that do not pull opposite ways.
#![tactic(auto)]

ghost use Rattle.std.specs.Prelude.{◌≡◌, ◌&&◌};
ghost use Rattle.refusal.specs.Refusals.{answer_of};
ghost use Rattle.date_duration.specs.Proposal.{duration, all_small, any_below, any_above};
ghost use Rattle.date_duration.specs.Proposal.{is_valid_duration};
ghost use Rattle.date_duration.specs.Paper.{sign_from, new_duration, duration_sign, duration_abs, duration_negated, duration_adjust};

use refusal::Refusal;
use std::cmp::Ordering;

// The largest size of years, months and weeks: 2^32 - 1.
const MOST_PART: u64 = 4_294_967_295;
// The most days whose seconds are below 2^53: (2^53 - 1) / 86,400, rounded down.
const MOST_DAYS: u64 = 104_249_991_374;

// A duration's parts. Any numbers may stand in them; each call that takes a record checks it.
#[derive(Clone, Copy, Debug, PartialEq, Eq)]
pub struct DateDuration {
    pub years: i64,
    pub months: i64,
    pub weeks: i64,
    pub days: i64,
}

// Which way a duration points, and as a number.
#[derive(Clone, Copy, Debug, PartialEq, Eq)]
pub enum Sign {
    Negative = -1,
    Zero = 0,
    Positive = 1,
}

impl From<Ordering> for Sign {
    // The sign of a number, from how it compares to 0.
    fn from(order: Ordering) -> Sign
        ensures { result ≡ sign_from order }
    {
        match order {
            Ordering::Less => Sign::Negative,
            Ordering::Equal => Sign::Zero,
            Ordering::Greater => Sign::Positive,
        }
    }
}

impl DateDuration {
    // Whether years, months and weeks are below 2^32 in size, and the seconds of the days below 2^53.
    fn all_small(self) -> bool
        ensures { result ≡ all_small self }
    {
        let larger = [self.years, self.months, self.weeks];
        larger.iter().all(|x| x.unsigned_abs() <= MOST_PART)
            && self.days.unsigned_abs() <= MOST_DAYS
    }

    // Whether a part below 0 stands beside one above it.
    fn is_opposed(self) -> bool
        ensures { result ≡ (any_below self && any_above self) }
    {
        let parts = [self.years, self.months, self.weeks, self.days];
        parts.iter().any(|x| *x < 0) && parts.iter().any(|x| *x > 0)
    }

    // Whether no two parts are opposed and each is within its bound.
    #[tactic(auto, unfolding(crate::specs::Proposal::is_valid_duration))]
    pub fn is_valid(self) -> bool
        ensures { result ≡ is_valid_duration self }
    {
        self.all_small() && !self.is_opposed()
    }

    // The duration itself where it is valid, else 8.
    #[tactic(auto, unfolding(crate::specs::Paper::new_duration))]
    fn checked(self) -> Result<DateDuration, Refusal>
        ensures { answer_of result ≡ new_duration self }
    {
        if self.is_valid() {
            Ok(self)
        } else {
            Err(Refusal::Duration)
        }
    }

    // The four parts as a duration, or 8.
    pub fn new(years: i64, months: i64, weeks: i64, days: i64) -> Result<DateDuration, Refusal>
        ensures { answer_of result ≡ new_duration (duration years months weeks days) }
    {
        let made = DateDuration {
            years,
            months,
            weeks,
            days,
        };
        made.checked()
    }

    // Which way a valid duration points, that of the first part that is not 0; 8 where it is not valid.
    #[tactic(auto, using(crate::proofs::Durations::sign_laws), unfolding(crate::specs::Paper::duration_sign))]
    pub fn sign(self) -> Result<Sign, Refusal>
        ensures { answer_of result ≡ duration_sign self }
    {
        let valid = self.checked()?;
        let order = valid
            .years
            .cmp(&0)
            .then(valid.months.cmp(&0))
            .then(valid.weeks.cmp(&0))
            .then(valid.days.cmp(&0));
        Ok(Sign::from(order))
    }

    // A valid duration with each part as its size; 8 where it is not valid.
    #[tactic(auto, using(crate::proofs::Durations::abs_laws), unfolding(crate::specs::Paper::duration_abs))]
    pub fn abs(self) -> Result<DateDuration, Refusal>
        ensures { answer_of result ≡ duration_abs self }
    {
        let valid = self.checked()?;
        Ok(DateDuration {
            years: valid.years.abs(),
            months: valid.months.abs(),
            weeks: valid.weeks.abs(),
            days: valid.days.abs(),
        })
    }

    // A valid duration turned the other way, each part; 8 where it is not valid.
    #[tactic(auto, using(crate::proofs::Durations::unchecked), unfolding(crate::specs::Paper::duration_negated))]
    pub fn negated(self) -> Result<DateDuration, Refusal>
        ensures { answer_of result ≡ duration_negated self }
    {
        let valid = self.checked()?;
        Ok(DateDuration {
            years: -valid.years,
            months: -valid.months,
            weeks: -valid.weeks,
            days: -valid.days,
        })
    }

    // The days given, weeks and months given or kept, the years kept: 8 where the duration, or what comes out, is not valid.
    #[tactic(auto, using(crate::proofs::Durations::unchecked), unfolding(crate::specs::Paper::duration_adjust))]
    pub fn adjust(
        self,
        days: i64,
        weeks: Option<i64>,
        months: Option<i64>,
    ) -> Result<DateDuration, Refusal>
        ensures { answer_of result ≡ duration_adjust self days weeks months }
    {
        let valid = self.checked()?;
        DateDuration::new(
            valid.years,
            months.unwrap_or(valid.months),
            weeks.unwrap_or(valid.weeks),
            days,
        )
    }
}
