// Moments as a day and a nanosecond of the day. In differences and for an instant both are naturals.
ghost use Rattle.std.specs.Prelude.{◌≡◌, true, ◌+◌, ◌-◌, ◌*◌, ◌^◌, ◌<◌, ◌≤◌, cond, ltb, nat_abs};
ghost use Rattle.refusal.specs.Refusals.{answer_of};
ghost use Rattle.options.specs.Units.{ns_per_day};
ghost use Rattle.refusal.specs.Answer.{check, given};
ghost use Rattle.whole.specs.Whole.{◌⊖◌};
ghost use Rattle.iso_date.specs.Proposal.{is_valid_iso_date, epoch_days_to_iso_date};
ghost use Rattle.iso_date.specs.Inner.{day_bias};
ghost use Rattle.iso_time.specs.Proposal.{is_valid_time, nanoseconds, in_seconds};
ghost use Rattle.date_math.specs.Proposal.{directed};
ghost use Rattle.date_math.specs.Paper.{difference_of_dates};
ghost use Rattle.iso_date_time.specs.Proposal.{date_time, iso_date_time_within_limits, get_iso_parts_from_epoch, with_offset};
ghost use Rattle.iso_date_time.specs.Paper.{date_time_limits, difference_of_records, is_instant, is_offset};
ghost use Rattle.iso_date_time.specs.Inner.{Adjusts};

use crate::{DateTimeDifference, InternalDurationRecord, IsoDateTime};
use date_duration::DateDuration;
use date_math::DateDifference;
use iso_date::IsoDate;
use iso_date::inner::{DAY_BIAS, ValidDate};
use iso_time::TimeDuration;
use iso_time::inner::ValidTime;
use options::Unit;
use refusal::Refusal;
use whole::inner::{directed, raise};

const NS_PER_DAY: u64 = 86_400_000_000_000;

// An instant lies at most so many days from the epoch, and the limits of a moment a day further, both ends outside.
const MOST_INSTANT_DAYS: i64 = 100_000_000;

const NS_PER_SECOND: u64 = 1_000_000_000;

const SECONDS_PER_DAY: u64 = 86_400;

// A record whose fields are valid and that lies within the limits.
#[derive(Clone, Copy)]
pub struct ValidDateTime {
    pub date: ValidDate,
    pub time: ValidTime,
    pub ghost within: { given tt ≡ date_time_limits (date_time date.date time.time) },
}

// Whether a moment lies strictly between the limits: on the first day of all, midnight does not.
pub fn is_within_limits(date: ValidDate, time: ValidTime) -> bool
    ensures { result ≡ iso_date_time_within_limits (date_time date.date time.time) }
{
    let day = date.epoch_days();
    let ns = time.nanoseconds();
    // By `&&` and `||` each way out is a goal of its own, which was tried: one law reads the test as one formula.
    (-MOST_INSTANT_DAYS - 1 <= day)
        & (day <= MOST_INSTANT_DAYS)
        & ((-MOST_INSTANT_DAYS <= day) | (0 < ns))
}

// A record held to the limits (3).
pub fn limited(date: ValidDate, time: ValidTime) -> Result<IsoDateTime, Refusal>
    ensures { answer_of result ≡ check (iso_date_time_within_limits (date_time date.date time.time)) 3
        (given (date_time date.date time.time)) }
{
    if is_within_limits(date, time) {
        Ok(IsoDateTime {
            date: date.date,
            time: time.time,
        })
    } else {
        Err(Refusal::DateTimeLimits)
    }
}

// The days that a time of the day has to borrow to reach another, 1 or none, and the nanoseconds that it then takes.
fn time_until(a: u64, b: u64) -> (u64, u64)
    requires { (a < ns_per_day) × (b < ns_per_day) }
    ensures { (result.0 ≡ cond (ltb b a) 1 0) × ((result.1 + a ≡ b + ns_per_day * result.0) × (result.1 < ns_per_day)) }
{
    if b < a {
        (1, b + NS_PER_DAY - a)
    } else {
        (0, b - a)
    }
}

// The day that the second date is moved to, and the time that is then left: whether it goes forward, and its size. No number with a sign
// in place of the two: where nothing is left the dates still have the direction.
#[derive(Clone, Copy, Debug, PartialEq, Eq)]
pub struct Adjustment {
    pub day: u64,
    pub forward: bool,
    pub nanoseconds: u64,
}

// From day p at nanosecond a to day q at nanosecond b. Where date and time pull opposite ways, a day moves between them.
fn adjusted(p: u64, a: u64, q: u64, b: u64) -> Adjustment
    requires { ((a < ns_per_day) × (b < ns_per_day)) × ((p < 2 ^ 51) × (q < 2 ^ 51)) }
    ensures { Adjusts p a q b result.day result.forward result.nanoseconds }
{
    if p < q || (p == q && a <= b) {
        let (borrowed, nanoseconds) = time_until(a, b);
        Adjustment {
            day: q - borrowed,
            forward: true,
            nanoseconds,
        }
    } else {
        let (borrowed, nanoseconds) = time_until(b, a);
        Adjustment {
            day: q + borrowed,
            forward: false,
            nanoseconds,
        }
    }
}

impl Adjustment {
    // Days and the time that is left, of its direction, as whole seconds and nanoseconds.
    fn in_seconds(self, days: u64) -> TimeDuration
        requires { (days < 2 ^ 40) × (self.nanoseconds < ns_per_day) }
        ensures { result ≡ in_seconds (directed self.forward (ns_per_day * days + self.nanoseconds)) }
    {
        TimeDuration {
            seconds: directed(
                self.forward,
                SECONDS_PER_DAY * days + self.nanoseconds / NS_PER_SECOND,
            ),
            nanoseconds: directed(self.forward, self.nanoseconds % NS_PER_SECOND),
        }
    }
}

// The difference of two dates, the second by its day number.
fn dates_until(one: ValidDate, day: u64, unit: Unit) -> DateDifference
    requires { (day_bias - 100000001 ≤ day) × (day ≤ day_bias + 100000001) }
    ensures { result ≡ difference_of_dates one.date (epoch_days_to_iso_date (day ⊖ day_bias)) unit }
{
    let two = ValidDate {
        date: iso_date::inner::civil(day),
    };
    date_math::inner::difference(one, two, unit)
}

// The difference of two records.
pub fn difference(one: ValidDateTime, two: ValidDateTime, unit: Unit) -> DateTimeDifference
    ensures { result ≡ difference_of_records (date_time one.date.date one.time.time) (date_time two.date.date two.time.time) unit }
{
    let from = one.date.day_up();
    let moved = adjusted(
        from,
        one.time.nanoseconds(),
        two.date.day_up(),
        two.time.nanoseconds(),
    );
    if unit.rank() > Unit::Day.rank() {
        let time = moved.in_seconds(from.abs_diff(moved.day));
        return DateTimeDifference {
            duration: InternalDurationRecord {
                date: DateDuration {
                    years: 0,
                    months: 0,
                    weeks: 0,
                    days: 0,
                },
                time,
            },
            tries: 0,
        };
    }
    let dates = dates_until(one.date, moved.day, unit);
    DateTimeDifference {
        duration: InternalDurationRecord {
            date: dates.duration,
            time: moved.in_seconds(0),
        },
        tries: dates.tries,
    }
}

// Whether a day and a nanosecond of the day are an instant: at most 10^8 days from the epoch, on the last day midnight alone.
pub fn is_instant(day: i64, nanosecond: i64) -> bool
    ensures { result ≡ is_instant day nanosecond }
{
    // With `&` and `|` for the reason above.
    (0 <= nanosecond)
        & (nanosecond < NS_PER_DAY as i64)
        & (-MOST_INSTANT_DAYS <= day)
        & ((day < MOST_INSTANT_DAYS) | ((day <= MOST_INSTANT_DAYS) & (nanosecond <= 0)))
}

// Whether an offset is below one day in size.
#[tactic(auto, unfolding(crate::specs::Paper::is_offset))]
pub fn is_offset(offset: i64) -> bool
    ensures { result ≡ is_offset offset }
{
    offset.unsigned_abs() < NS_PER_DAY
}

// The record of an instant at an offset. The offset is raised by a day, so that its sum with the nanosecond is a natural; the day number
// gives that day back.
pub fn from_instant(day: i64, nanosecond: i64, offset: i64) -> IsoDateTime
    requires { (is_instant day nanosecond ≡ true) × (is_offset offset ≡ true) }
    ensures { result ≡ with_offset (get_iso_parts_from_epoch day (nat_abs nanosecond)) offset }
{
    let n = nanosecond.unsigned_abs() + raise(offset, NS_PER_DAY);
    let d = raise(day, DAY_BIAS) + n / NS_PER_DAY - 1;
    IsoDateTime {
        date: iso_date::inner::civil(d),
        time: ValidTime::at(n % NS_PER_DAY).time,
    }
}
