// Dates whose fields are known to be valid. What counts days takes such a date, so the test of the fields is made once.
ghost use Rattle.std.specs.Prelude.{◌≡◌, true, false, ◌<◌, ◌^◌, nat_abs, ◌+ℤ◌, ◌*ℤ◌, pos, MatchResult};
ghost use Rattle.refusal.specs.Answer.{given, refused};
ghost use Rattle.refusal.specs.Refusals.{answer_of, refusal_number};
ghost use Rattle.whole.specs.Whole.{◌⊖◌};
ghost use Rattle.iso_date.specs.Proposal.{is_valid_iso_date, constrain_iso_date, epoch_days, iso_date_within_limits};
ghost use Rattle.iso_date.specs.Paper.{day_to_date, date_limits, regulate_date};
ghost use Rattle.iso_date.specs.Inner.{day_bias};

use super::{DAY_BIAS, FIRST_WITHIN, LAST_WITHIN, UpMonth, days_in_month};
use crate::IsoDate;
use options::Overflow;
use refusal::Refusal;

// A date whose month exists and has its day.
#[derive(Clone, Copy)]
pub struct ValidDate {
    pub date: IsoDate,
    pub ghost valid: { is_valid_iso_date date ≡ true },
}

impl IsoDate {
    // The date as one whose fields are valid, or 1.
    pub fn checked(self) -> Result<ValidDate, Refusal>
        ensures { MatchResult result (λ v. v.date ≡ self) (λ e. (refusal_number e ≡ 1) × (is_valid_iso_date self ≡ false)) }
    {
        if self.is_valid() {
            Ok(ValidDate { date: self })
        } else {
            Err(Refusal::Field)
        }
    }

    // The date with the month, then the day, moved to the nearest that is valid.
    fn constrained(self) -> ValidDate
        ensures { result.date ≡ constrain_iso_date self }
    {
        let year = self.year;
        let month = self.month.clamp(1, 12);
        let day = self.day.clamp(1, days_in_month(year, month));
        ValidDate {
            date: IsoDate { year, month, day },
        }
    }

    // The date made valid: constrained, or 1 under reject where its fields are not.
    #[tactic(auto, unfolding(crate::specs::Paper::regulate_date))]
    pub fn regulated(self, overflow: Overflow) -> Result<ValidDate, Refusal>
        ensures { MatchResult result (λ v. given v.date ≡ regulate_date self overflow) (λ e. refused (refusal_number e) ≡ regulate_date self overflow) }
    {
        match overflow {
            Overflow::Constrain => Ok(self.constrained()),
            Overflow::Reject => self.checked(),
        }
    }

    // The date where its fields are valid (1) and it lies within the limits (2).
    #[tactic(auto, using(crate::proofs::Answers::limits_bad, crate::proofs::Answers::limits_out, crate::proofs::Answers::limits_within))]
    pub fn within_limits(self) -> Result<ValidDate, Refusal>
        ensures { MatchResult result (λ v. (v.date ≡ self) × (given tt ≡ date_limits self)) (λ e. refused (refusal_number e) ≡ date_limits self) }
    {
        let date = self.checked()?;
        if date.is_within_limits() {
            Ok(date)
        } else {
            Err(Refusal::DateLimits)
        }
    }
}

impl ValidDate {
    // The day number, as a natural: `civil` leads back from it.
    #[tactic(auto, using(crate::proofs::Dates::month_low, crate::proofs::Dates::month_high, crate::proofs::Dates::day_low, crate::proofs::Answers::day_of_valid))]
    pub fn day_up(self) -> u64
        ensures { (epoch_days self.date ≡ result ⊖ day_bias) × (result < 2 ^ 51) }
    {
        let date = self.date;
        UpMonth::of(date.year, date.month).start() + u64::from(date.day) - 1
    }

    // The day number.
    #[tactic(auto, using(crate::proofs::Answers::lowered_day))]
    pub fn epoch_days(self) -> i64
        ensures { (result ≡ epoch_days self.date) × (nat_abs result < 2 ^ 51) }
    {
        whole::inner::lower(self.day_up(), DAY_BIAS)
    }

    // Whether the date lies within the limits.
    #[tactic(auto, using(crate::proofs::Answers::limits_decide))]
    pub fn is_within_limits(self) -> bool
        ensures { result ≡ iso_date_within_limits self.date }
    {
        (FIRST_WITHIN..=LAST_WITHIN).contains(&self.epoch_days())
    }

    // The date moved by weeks and days; 4 past the balanced range.
    pub fn add_days(self, weeks: i64, days: i64) -> Result<IsoDate, Refusal>
        requires { (nat_abs weeks < 2 ^ 32) × (nat_abs days < 2 ^ 38) }
        ensures { answer_of result ≡ day_to_date (epoch_days self.date +ℤ (days +ℤ pos 7 *ℤ weeks)) }
    {
        IsoDate::from_epoch_days(self.epoch_days() + (days + 7 * weeks))
    }
}
