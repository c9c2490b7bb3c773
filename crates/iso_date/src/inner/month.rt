// A month of a year as naturals: its length, and where its first day lies.
ghost use Rattle.std.specs.Prelude.{◌≡◌, ◌+◌, ◌-◌, ◌<◌, ◌≤◌, ◌^◌, get_or};
ghost use Rattle.whole.specs.Whole.{◌⊖◌};
ghost use Rattle.iso_date.specs.Proposal.{leap_year, month_lengths, day_from_month};
ghost use Rattle.iso_date.specs.Inner.{year_bias, day_bias};

use super::{MONTH_LENGTHS, days_before, is_leap, year_start, year_up};

// A year and one of its months, both as naturals; the months are counted from 0.
#[derive(Clone, Copy)]
pub struct UpMonth {
    pub year: u64,
    pub index: u64,
    pub ghost within: { (year < 2 ^ 40) × (index < 12) },
}

impl UpMonth {
    // The month of a date.
    pub fn of(year: i32, month: u8) -> UpMonth
        requires { (1 ≤ month) × (month ≤ 12) }
        ensures { (year ≡ result.year ⊖ year_bias) × (result.index + 1 ≡ month) }
    {
        UpMonth {
            year: year_up(year),
            index: u64::from(month) - 1,
        }
    }

    // How many days it has. The leap test is made for every month, so that nothing branches: what also takes the start has it once.
    #[tactic(auto, using(crate::proofs::Tables::length_sum))]
    pub fn days(self) -> u8
        ensures { (result ≡ get_or (month_lengths (leap_year (self.year ⊖ year_bias))) self.index 0) × (result ≤ 31) }
    {
        MONTH_LENGTHS[self.index as usize] + u8::from(is_leap(self.year) & (self.index == 1))
    }

    // The day number of its first day, as a natural.
    #[tactic(auto, using(crate::proofs::Years::month_biased))]
    pub fn start(self) -> u64
        ensures { (result ⊖ day_bias ≡ day_from_month (self.year ⊖ year_bias) self.index) × (result < 2 ^ 50) }
    {
        year_start(self.year) + days_before(is_leap(self.year), self.index)
    }
}
