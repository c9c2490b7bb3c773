// Times as one number, the nanoseconds since midnight, the balance of fields, and the units that times are rounded to.
ghost use Rattle.std.specs.Prelude.{◌≡◌, true, ◌^◌, ◌%◌, ◌≤◌, ◌<◌, nat_abs, pos, ◌+ℤ◌, ◌-ℤ◌};
ghost use Rattle.std.specs.Result.{result_map_both};
ghost use Rattle.whole.specs.Whole.{◌⊖◌, fdiv, fmod};
ghost use Rattle.refusal.specs.Refusals.{answer_of};
ghost use Rattle.options.specs.Units.{ns_per_day};
ghost use Rattle.iso_time.specs.Proposal.{is_valid_time, balance_time, nanoseconds, unit_length};
ghost use Rattle.iso_time.specs.Proposal.{valid_increment, round_time, in_seconds};
ghost use Rattle.iso_time.specs.Inner.{Within, AllWithin, field_bias, checked_time, Carried, row_of, scale_of, allowed};

use crate::{BalancedTime, IsoTime, TimeDuration};
use options::Unit;
use refusal::Refusal;
use rounding::RoundingMode;

// What a field to be balanced is raised by: more than its bound of 2^53 - 1 with what is carried into it, and a multiple of each divisor.
const FIELD_BIAS: u64 = 10_800_000_000_000_000;

const NS_PER_DAY: u64 = 86_400_000_000_000;

const NS_PER_SECOND: i64 = 1_000_000_000;

// A field to be balanced, as a natural: one that is raised is divided with no test of its sign.
fn field_up(x: i64) -> u64
    requires { Within x }
    ensures { (x ≡ result ⊖ field_bias) × (result < 20000000000000000) }
{
    whole::inner::raise(x, FIELD_BIAS)
}

// A time whose fields are within their ranges.
#[derive(Clone, Copy)]
pub struct ValidTime {
    pub time: IsoTime,
    pub ghost valid: { is_valid_time time ≡ true },
}

impl ValidTime {
    // The time where its fields are valid, else 1.
    #[tactic(auto, unfolding(crate::specs::Inner::checked_time))]
    pub fn new(time: IsoTime) -> Result<ValidTime, Refusal>
        ensures { answer_of (result_map_both (λ v. v.time) (λ e. e) result) ≡ checked_time time }
    {
        if time.is_valid() {
            Ok(ValidTime { time })
        } else {
            Err(Refusal::Field)
        }
    }

    // The time that lies n nanoseconds after midnight.
    #[tactic(auto, using(crate::proofs::Times::time_at_is))]
    pub fn at(n: u64) -> ValidTime
        requires { n < ns_per_day }
        ensures { nanoseconds result.time ≡ n }
    {
        let micros = n / 1000;
        let millis = micros / 1000;
        let seconds = millis / 1000;
        let minutes = seconds / 60;
        ValidTime {
            time: IsoTime {
                hour: (minutes / 60) as u8,
                minute: (minutes % 60) as u8,
                second: (seconds % 60) as u8,
                millisecond: (millis % 1000) as u16,
                microsecond: (micros % 1000) as u16,
                nanosecond: (n % 1000) as u16,
            },
        }
    }

    // The nanoseconds since midnight.
    #[tactic(auto, using(crate::proofs::Times::day_laws), unfolding(crate::specs::Proposal::nanoseconds))]
    pub fn nanoseconds(self) -> u64
        ensures { (result ≡ nanoseconds self.time) × (result < ns_per_day) }
    {
        let t = self.time;
        let minutes = u64::from(t.hour) * 60 + u64::from(t.minute);
        let seconds = minutes * 60 + u64::from(t.second);
        let millis = seconds * 1000 + u64::from(t.millisecond);
        let micros = millis * 1000 + u64::from(t.microsecond);
        micros * 1000 + u64::from(t.nanosecond)
    }
}

// Six fields balanced into days and a time: what is too much in a field is carried into the next, rounded down.
pub fn balance(
    hour: i64,
    minute: i64,
    second: i64,
    millisecond: i64,
    microsecond: i64,
    nanosecond: i64,
) -> BalancedTime
    requires { AllWithin hour minute second millisecond microsecond nanosecond }
    ensures { result ≡ balance_time hour minute second millisecond microsecond nanosecond }
{
    let (micros, nanosecond) = carry(nanosecond, 0, 1000);
    let (millis, microsecond) = carry(microsecond, micros, 1000);
    let (seconds, millisecond) = carry(millisecond, millis, 1000);
    let (minutes, second) = carry(second, seconds, 60);
    let (hours, minute) = carry(minute, minutes, 60);
    let (days, hour) = carry(hour, hours, 24);
    BalancedTime {
        days,
        time: IsoTime {
            hour: hour as u8,
            minute: minute as u8,
            second: second as u8,
            millisecond,
            microsecond,
            nanosecond,
        },
    }
}

// A field with what is carried into it: how many whole d it holds, rounded down, which are carried into the next, and what is left.
fn carry(field: i64, over: i64, d: u64) -> (i64, u16)
    requires { (Within field × (nat_abs over ≤ 2 ^ 50)) × ((24 ≤ d) × ((d ≤ 1000) × (field_bias % d ≡ 0))) }
    ensures carried { (result.0 ≡ fdiv (field +ℤ over) d) × (nat_abs result.0 ≤ 2 ^ 50) }
    ensures left { (result.1 ≡ fmod (field +ℤ over) d) × (result.1 < d) }
{
    let up = whole::inner::raise(over, field_up(field));
    let carried = whole::inner::lower(up / d, FIELD_BIAS / d);
    (carried, (up % d) as u16)
}

// A unit that a time is rounded to: its length in nanoseconds, and how many of it make the next, 1 for day, which has no next. Both are 0
// for a unit that a time is not rounded to.
#[derive(Clone, Copy, Debug, PartialEq, Eq)]
pub struct Scale {
    pub length: u64,
    pub dividend: u64,
}

// What a unit's scale is; both numbers are 0 for those that a time is not rounded to.
#[tactic(auto, unfolding(crate::specs::Inner::dividend, crate::specs::Proposal::unit_length))]
fn row_of(unit: Unit) -> Scale
    ensures { result ≡ row_of unit }
{
    let (length, dividend) = match unit {
        Unit::Year | Unit::Month | Unit::Week => (0, 0),
        Unit::Day => (NS_PER_DAY, 1),
        Unit::Hour => (3_600_000_000_000, 24),
        Unit::Minute => (60_000_000_000, 60),
        Unit::Second => (1_000_000_000, 60),
        Unit::Millisecond => (1_000_000, 1000),
        Unit::Microsecond => (1000, 1000),
        Unit::Nanosecond => (1, 1000),
    };
    Scale { length, dividend }
}

// The same; none for those that a time is not rounded to.
#[tactic(auto, unfolding(crate::specs::Inner::scale_of))]
pub fn scale_of(unit: Unit) -> Option<Scale>
    ensures { result ≡ scale_of unit }
{
    let scale = row_of(unit);
    if scale.length == 0 { None } else { Some(scale) }
}

// The length of a unit in nanoseconds; 0 for those that a time is not rounded to.
pub fn length_of(unit: Unit) -> u64
    ensures { result ≡ unit_length unit }
{
    row_of(unit).length
}

// Whether an increment is allowed at a unit: none is at those that a time is not rounded to.
#[tactic(auto, using(crate::proofs::Checks::allowed_is))]
pub fn is_increment(unit: Unit, increment: u64) -> bool
    ensures { result ≡ valid_increment unit increment }
{
    row_of(unit).allows(increment)
}

impl Scale {
    // Whether an increment is allowed: 1 for day, a proper divisor of how many make the next for the others.
    #[tactic(auto, unfolding(crate::specs::Inner::allowed))]
    pub fn allows(self, increment: u64) -> bool
        ensures { result ≡ allowed self increment }
    {
        if self.dividend == 1 {
            return increment == 1;
        }
        1 <= increment && increment < self.dividend && self.dividend % increment == 0
    }
}

// A time rounded at a unit, with the day that may be carried. The larger fields stay: what the next larger unit leaves is taken out of the
// time, rounded, and put back.
pub fn round(t: IsoTime, unit: Unit, increment: u64, mode: RoundingMode) -> BalancedTime
    requires { (is_valid_time t ≡ true) × ((0 < unit_length unit) × (valid_increment unit increment ≡ true)) }
    ensures { result ≡ round_time t increment unit mode }
{
    let scale = row_of(unit);
    let n = ValidTime { time: t }.nanoseconds();
    let next = scale.dividend * scale.length;
    let quantity = n % next;
    let rule = rounding::inner::get_unsigned_round_mode(mode, false);
    let rounded = rounding::inner::round_small(quantity, increment * scale.length, rule);
    carried(n - quantity + rounded)
}

// The days and the time of a number of nanoseconds.
fn carried(n: u64) -> BalancedTime
    ensures { Carried n result }
{
    BalancedTime {
        days: (n / NS_PER_DAY) as i64,
        time: ValidTime::at(n % NS_PER_DAY).time,
    }
}

// From one nanosecond of the day to another, as whole seconds and nanoseconds of one sign.
pub fn span(one: u64, two: u64) -> TimeDuration
    requires { (one < ns_per_day) × (two < ns_per_day) }
    ensures { result ≡ in_seconds (pos two -ℤ pos one) }
{
    let n = two as i64 - one as i64;
    TimeDuration {
        seconds: n / NS_PER_SECOND,
        nanoseconds: n % NS_PER_SECOND,
    }
}
