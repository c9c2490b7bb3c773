// The values of each kind of answer.

ghost use Rattle.std.specs.Prelude.{◌≡◌, ◌+◌, ◌*◌, ◌≤◌, ◌++◌, length};
ghost use Rattle.std.proofs.Common.{rules};
ghost use Rattle.writing.specs.Text.{spaced};
ghost use Rattle.writing.specs.Wrote.{Wrote};
ghost use Rattle.replies.specs.Replies.{no_values, natural_value, whole_value, date_values, year_month_values, time_values};
ghost use Rattle.replies.specs.Replies.{balanced_values, span_values, duration_values, sign_value, date_time_values};
ghost use Rattle.replies.specs.Replies.{record_values, date_difference_values, difference_values};

use crate::inner::Values;
use date_duration::{DateDuration, Sign};
use date_math::DateDifference;
use iso_date::{IsoDate, YearMonth};
use iso_date_time::{DateTimeDifference, InternalDurationRecord, IsoDateTime};
use iso_time::{BalancedTime, IsoTime, TimeDuration};
use writing::inner::{put_integer, put_natural};

impl Values for () {
    ghost values = { no_values };

    ghost few = { Prim.search rules };

    fn put(self, out: &mut [u8], at: usize) -> usize {
        at
    }
}

// The length of a month.
impl Values for u8 {
    ghost values = { natural_value };

    ghost few = { Prim.search rules };

    fn put(self, out: &mut [u8], at: usize) -> usize {
        put_natural(out, at, u64::from(self))
    }
}

impl Values for i64 {
    ghost values = { whole_value };

    ghost few = { Prim.search rules };

    fn put(self, out: &mut [u8], at: usize) -> usize {
        put_integer(out, at, self)
    }
}

impl Values for IsoDate {
    ghost values = { date_values };

    ghost few = { Prim.search rules };

    fn put(self, out: &mut [u8], at: usize) -> usize {
        let month = put_integer(out, at, i64::from(self.year));
        let day = put_natural(out, month, u64::from(self.month));
        put_natural(out, day, u64::from(self.day))
    }
}

impl Values for YearMonth {
    ghost values = { year_month_values };

    ghost few = { Prim.search rules };

    fn put(self, out: &mut [u8], at: usize) -> usize {
        let month = put_integer(out, at, i64::from(self.year));
        put_natural(out, month, u64::from(self.month))
    }
}

impl Values for IsoTime {
    ghost values = { time_values };

    ghost few = { Prim.search rules };

    fn put(self, out: &mut [u8], at: usize) -> usize {
        let minute = put_natural(out, at, u64::from(self.hour));
        let second = put_natural(out, minute, u64::from(self.minute));
        let millisecond = put_natural(out, second, u64::from(self.second));
        let microsecond = put_natural(out, millisecond, u64::from(self.millisecond));
        let nanosecond = put_natural(out, microsecond, u64::from(self.microsecond));
        put_natural(out, nanosecond, u64::from(self.nanosecond))
    }
}

impl Values for BalancedTime {
    ghost values = { balanced_values };

    ghost few = { Prim.search rules };

    fn put(self, out: &mut [u8], at: usize) -> usize {
        let time = self.days.put(out, at);
        self.time.put(out, time)
    }
}

impl Values for TimeDuration {
    ghost values = { span_values };

    ghost few = { Prim.search rules };

    fn put(self, out: &mut [u8], at: usize) -> usize {
        let nanoseconds = self.seconds.put(out, at);
        self.nanoseconds.put(out, nanoseconds)
    }
}

impl Values for DateDuration {
    ghost values = { duration_values };

    ghost few = { Prim.search rules };

    fn put(self, out: &mut [u8], at: usize) -> usize {
        let months = self.years.put(out, at);
        let weeks = self.months.put(out, months);
        let days = self.weeks.put(out, weeks);
        self.days.put(out, days)
    }
}

impl Values for Sign {
    ghost values = { sign_value };

    ghost few = { Prim.search rules };

    fn put(self, out: &mut [u8], at: usize) -> usize {
        put_integer(out, at, self as i64)
    }
}

impl Values for IsoDateTime {
    ghost values = { date_time_values };

    ghost few = { Prim.search rules };

    fn put(self, out: &mut [u8], at: usize) -> usize {
        let time = self.date.put(out, at);
        self.time.put(out, time)
    }
}

impl Values for InternalDurationRecord {
    ghost values = { record_values };

    ghost few = { Prim.search rules };

    fn put(self, out: &mut [u8], at: usize) -> usize {
        let time = self.date.put(out, at);
        self.time.put(out, time)
    }
}

// Writes the values of a difference, and last how many candidates were tried.
fn put_counted<T: Values>(out: &mut [u8], at: usize, duration: T, tries: u8) -> usize
    requires { at + 21 * (length (T.values duration) + 1) ≤ length out.old }
    ensures { Wrote out.old at (spaced (T.values duration ++ natural_value tries)) out.new result ×
        (result ≤ at + 21 * (length (T.values duration) + 1)) }
{
    let count = duration.put(out, at);
    tries.put(out, count)
}

impl Values for DateDifference {
    ghost values = { date_difference_values };

    ghost few = { Prim.search rules };

    fn put(self, out: &mut [u8], at: usize) -> usize {
        put_counted(out, at, self.duration, self.tries)
    }
}

impl Values for DateTimeDifference {
    ghost values = { difference_values };

    ghost few = { Prim.search rules };

    fn put(self, out: &mut [u8], at: usize) -> usize {
        put_counted(out, at, self.duration, self.tries)
    }
}
