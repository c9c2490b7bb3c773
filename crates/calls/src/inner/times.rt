// The calls on times and the number rounder: the numbers of a request as the call's parameters, the call, and its answer as the reply.
ghost use Rattle.replies.specs.Replies.{Replied};
ghost use Rattle.calls.specs.Table.{takes_of, answers_of};
ghost use Rattle.calls.specs.Ready.{Ready};

use iso_time::IsoTime;
use parameters::inner::number;
use parameters::inner::values::{mode, overflow, time, unit};
use replies::inner::reply;

pub fn regulate_time(n: &[i128], out: &mut [u8], at: usize) -> usize
    requires { Ready (takes_of "regulate_time") n.now at out.old }
    ensures { Replied out.old at (answers_of "regulate_time" n.now) out.new result }
{
    let time = time(n, 0);
    reply(
        out,
        at,
        IsoTime::new(
            time.hour,
            time.minute,
            time.second,
            time.millisecond,
            time.microsecond,
            time.nanosecond,
            overflow(n, 6),
        ),
    )
}

pub fn balance_time(n: &[i128], out: &mut [u8], at: usize) -> usize
    requires { Ready (takes_of "balance_time") n.now at out.old }
    ensures { Replied out.old at (answers_of "balance_time" n.now) out.new result }
{
    reply(
        out,
        at,
        IsoTime::balance(
            number(n, 0),
            number(n, 1),
            number(n, 2),
            number(n, 3),
            number(n, 4),
            number(n, 5),
        ),
    )
}

pub fn time_difference(n: &[i128], out: &mut [u8], at: usize) -> usize
    requires { Ready (takes_of "time_difference") n.now at out.old }
    ensures { Replied out.old at (answers_of "time_difference" n.now) out.new result }
{
    let one = time(n, 0);
    reply(out, at, one.diff(time(n, 6)))
}

pub fn round_number(n: &[i128], out: &mut [u8], at: usize) -> usize
    requires { Ready (takes_of "round_number") n.now at out.old }
    ensures { Replied out.old at (answers_of "round_number" n.now) out.new result }
{
    reply(
        out,
        at,
        rounding::round(number(n, 0), number(n, 1), mode(n, 2)),
    )
}

pub fn round_number_as_if_positive(n: &[i128], out: &mut [u8], at: usize) -> usize
    requires { Ready (takes_of "round_number_as_if_positive") n.now at out.old }
    ensures { Replied out.old at (answers_of "round_number_as_if_positive" n.now) out.new result }
{
    reply(
        out,
        at,
        rounding::round_as_if_positive(number(n, 0), number(n, 1), mode(n, 2)),
    )
}

pub fn round_time(n: &[i128], out: &mut [u8], at: usize) -> usize
    requires { Ready (takes_of "round_time") n.now at out.old }
    ensures { Replied out.old at (answers_of "round_time" n.now) out.new result }
{
    let time = time(n, 0);
    reply(out, at, time.round(unit(n, 6), number(n, 7), mode(n, 8)))
}
