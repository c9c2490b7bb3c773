// Dates of the ISO calendar: day counts and month lengths, the year-month balance, regulating, making, the limits and balancing.
#![tactic(auto)]

pub mod inner;

ghost use Rattle.std.specs.Prelude.{◌≡◌, true};
ghost use Rattle.refusal.specs.Refusals.{answer_of};
ghost use Rattle.iso_date.specs.Proposal.{date, is_valid_iso_date, constrain_iso_date};
ghost use Rattle.iso_date.specs.Paper.{month_length, date_to_day, day_to_date, balance_year_month};
ghost use Rattle.iso_date.specs.Paper.{regulate_date, make_date, date_limits, balance_date};

use options::Overflow;
use refusal::Refusal;

// A date's fields. Any numbers may stand in them; each call that takes a record checks it.
#[derive(Clone, Copy, Debug, PartialEq, Eq, PartialOrd, Ord)]
pub struct IsoDate {
    pub year: i32,
    pub month: u8,
    pub day: u8,
}

#[derive(Clone, Copy, Debug, PartialEq, Eq, PartialOrd, Ord)]
pub struct YearMonth {
    pub year: i32,
    pub month: u8,
}

// How many days a month has; 1 where there is no such month.
#[tactic(auto, unfolding(crate::specs::Paper::month_length))]
pub fn iso_days_in_month(year: i32, month: u8) -> Result<u8, Refusal>
    ensures { answer_of result ≡ month_length year month }
{
    if !(1..=12).contains(&month) {
        return Err(Refusal::Field);
    }
    Ok(inner::days_in_month(year, month))
}

impl IsoDate {
    // Whether the month exists and has the day.
    #[tactic(auto, unfolding(crate::specs::Proposal::is_valid_iso_date))]
    pub fn is_valid(self) -> bool
        ensures { result ≡ is_valid_iso_date self }
    {
        (1..=12).contains(&self.month)
            && (1..=inner::UpMonth::of(self.year, self.month).days()).contains(&self.day)
    }

    // The day number of a date; 1 where a field is not valid, 4 past the balanced range. The limits are not tested.
    #[tactic(auto, using(crate::proofs::Answers::day_bad, crate::proofs::Answers::day_far, crate::proofs::Answers::day_given))]
    pub fn to_epoch_days(self) -> Result<i64, Refusal>
        ensures { answer_of result ≡ date_to_day self }
    {
        let day = self.checked()?.epoch_days();
        if !inner::is_balanced(day) {
            return Err(Refusal::DayCount);
        }
        Ok(day)
    }

    // The date of a day number; 4 past the balanced range.
    pub fn from_epoch_days(day: i64) -> Result<IsoDate, Refusal>
        ensures { answer_of result ≡ day_to_date day }
    {
        if !inner::is_balanced(day) {
            return Err(Refusal::DayCount);
        }
        Ok(inner::civil(whole::inner::raise(day, inner::DAY_BIAS)))
    }
}

// The year and month that a month of any number is; the year is clamped to 32 bits.
pub fn balance_iso_year_month(year: i32, month: i32) -> YearMonth
    ensures { result ≡ balance_year_month year month }
{
    let b = inner::balance(year, month);
    YearMonth {
        year: inner::year_down(b.year),
        month: (b.index + 1) as u8,
    }
}

impl IsoDate {
    // The fields made valid: constrained, or 1 under reject where they are not. The limits are not tested.
    pub fn regulate(year: i32, month: u8, day: u8, overflow: Overflow) -> Result<IsoDate, Refusal>
        ensures { answer_of result ≡ regulate_date (date year month day) overflow }
    {
        Ok(IsoDate { year, month, day }.regulated(overflow)?.date)
    }

    // A date made of fields: regulated (1), then held to the limits (2).
    #[tactic(auto, using(crate::proofs::Answers::make_refused, crate::proofs::Answers::make_given, crate::proofs::Answers::make_past))]
    pub fn new_with_overflow(
        year: i32,
        month: u8,
        day: u8,
        overflow: Overflow,
    ) -> Result<IsoDate, Refusal>
        ensures { answer_of result ≡ make_date (date year month day) overflow }
    {
        let made = IsoDate { year, month, day }.regulated(overflow)?;
        if made.is_within_limits() {
            Ok(made.date)
        } else {
            Err(Refusal::DateLimits)
        }
    }

    // Whether a date may stand at all: its fields (1), then the limits (2).
    pub fn check_within_limits(self) -> Result<(), Refusal>
        ensures { answer_of result ≡ date_limits self }
    {
        self.within_limits()?;
        Ok(())
    }

    // The date of any year, month and day, by the exact day count; 4 past the balanced range.
    pub fn try_balance(year: i32, month: i32, day: i64) -> Result<IsoDate, Refusal>
        ensures { answer_of result ≡ balance_date year month day }
    {
        inner::balance_sum(year, month, day, 0)
    }
}
