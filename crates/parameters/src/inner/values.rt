// From the i-th number of a request on: a value of a parameter's type.
ghost use Rattle.std.specs.Prelude.{◌≡◌, [], ◌∷◌, ◌≤◌};
ghost use Rattle.parameters.specs.Meaning.{Holds, at, nat_at};
ghost use Rattle.parameters.specs.Parameters.{date_kinds, time_kinds, date_time_kinds, duration_kinds, choice_kinds, overflow_kind};
ghost use Rattle.parameters.specs.Parameters.{unit_kind, mode_kind, date_at, time_at, date_time_at, duration_at, part_at, overflow_of, unit_of};
ghost use Rattle.parameters.specs.Parameters.{mode_of, room_kind};

use crate::inner::number;
use date_duration::DateDuration;
use iso_date::IsoDate;
use iso_date_time::IsoDateTime;
use iso_time::IsoTime;
use options::{Overflow, Unit};
use rounding::RoundingMode;

// The units and the modes by their numbers. Tables, and no `TryFrom`: the numbers of a request lie within their letters' bounds, so that
// no error could be answered.
const UNITS: [Unit; 10] = [
    Unit::Year,
    Unit::Month,
    Unit::Week,
    Unit::Day,
    Unit::Hour,
    Unit::Minute,
    Unit::Second,
    Unit::Millisecond,
    Unit::Microsecond,
    Unit::Nanosecond,
];

const MODES: [RoundingMode; 9] = [
    RoundingMode::Ceil,
    RoundingMode::Floor,
    RoundingMode::Expand,
    RoundingMode::Trunc,
    RoundingMode::HalfCeil,
    RoundingMode::HalfFloor,
    RoundingMode::HalfExpand,
    RoundingMode::HalfTrunc,
    RoundingMode::HalfEven,
];

pub fn date(n: &[i128], i: usize) -> IsoDate
    requires { Holds date_kinds n.now i }
    ensures { result ≡ date_at n.now i }
{
    IsoDate {
        year: number(n, i),
        month: number(n, i + 1),
        day: number(n, i + 2),
    }
}

pub fn time(n: &[i128], i: usize) -> IsoTime
    requires { Holds time_kinds n.now i }
    ensures { result ≡ time_at n.now i }
{
    IsoTime {
        hour: number(n, i),
        minute: number(n, i + 1),
        second: number(n, i + 2),
        millisecond: number(n, i + 3),
        microsecond: number(n, i + 4),
        nanosecond: number(n, i + 5),
    }
}

pub fn date_time(n: &[i128], i: usize) -> IsoDateTime
    requires { Holds date_time_kinds n.now i }
    ensures { result ≡ date_time_at n.now i }
{
    IsoDateTime {
        date: date(n, i),
        time: time(n, i + 3),
    }
}

pub fn duration(n: &[i128], i: usize) -> DateDuration
    requires { Holds duration_kinds n.now i }
    ensures { result ≡ duration_at n.now i }
{
    DateDuration {
        years: number(n, i),
        months: number(n, i + 1),
        weeks: number(n, i + 2),
        days: number(n, i + 3),
    }
}

// 0 keeps the part, and 1 gives it the number that follows.
pub fn part(n: &[i128], i: usize) -> Option<i64>
    requires { Holds choice_kinds n.now i }
    ensures { result ≡ part_at n.now i }
{
    if number::<u64>(n, i) == 0 {
        return None;
    }
    Some(number(n, i + 1))
}

pub fn overflow(n: &[i128], i: usize) -> Overflow
    requires { Holds (overflow_kind ∷ []) n.now i }
    ensures { result ≡ overflow_of (at n.now i) }
{
    match number::<u64>(n, i) {
        0 => Overflow::Constrain,
        _ => Overflow::Reject,
    }
}

pub fn unit(n: &[i128], i: usize) -> Unit
    requires { Holds (unit_kind ∷ []) n.now i }
    ensures { result ≡ unit_of (at n.now i) }
{
    UNITS[number::<u64>(n, i) as usize]
}

pub fn mode(n: &[i128], i: usize) -> RoundingMode
    requires { Holds (mode_kind ∷ []) n.now i }
    ensures { result ≡ mode_of (at n.now i) }
{
    MODES[number::<u64>(n, i) as usize]
}

// How many bytes are lent: at most 64.
pub fn room(n: &[i128], i: usize) -> usize
    requires { Holds (room_kind ∷ []) n.now i }
    ensures { (result ≡ nat_at n.now i) × (result ≤ 64) }
{
    number::<u64>(n, i) as usize
}
