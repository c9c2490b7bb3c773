// The calls on dates with a time: the numbers of a request as the call's parameters, the call, and its answer as the reply.
ghost use Rattle.replies.specs.Replies.{Replied};
ghost use Rattle.calls.specs.Table.{takes_of, answers_of};
ghost use Rattle.calls.specs.Ready.{Ready};

use iso_date_time::IsoDateTime;
use parameters::inner::number;
use parameters::inner::values::{date_time, mode, unit};
use replies::inner::reply;

pub fn datetime_limits(n: &[i128], out: &mut [u8], at: usize) -> usize
    requires { Ready (takes_of "datetime_limits") n.now at out.old }
    ensures { Replied out.old at (answers_of "datetime_limits" n.now) out.new result }
{
    let record = date_time(n, 0);
    reply(out, at, record.check_within_limits())
}

pub fn balance_datetime(n: &[i128], out: &mut [u8], at: usize) -> usize
    requires { Ready (takes_of "balance_datetime") n.now at out.old }
    ensures { Replied out.old at (answers_of "balance_datetime" n.now) out.new result }
{
    reply(
        out,
        at,
        IsoDateTime::balance(
            number(n, 0),
            number(n, 1),
            number(n, 2),
            number(n, 3),
            number(n, 4),
            number(n, 5),
            number(n, 6),
            number(n, 7),
            number(n, 8),
        ),
    )
}

pub fn round_datetime(n: &[i128], out: &mut [u8], at: usize) -> usize
    requires { Ready (takes_of "round_datetime") n.now at out.old }
    ensures { Replied out.old at (answers_of "round_datetime" n.now) out.new result }
{
    let record = date_time(n, 0);
    reply(
        out,
        at,
        record.round(unit(n, 9), number(n, 10), mode(n, 11)),
    )
}

pub fn datetime_difference(n: &[i128], out: &mut [u8], at: usize) -> usize
    requires { Ready (takes_of "datetime_difference") n.now at out.old }
    ensures { Replied out.old at (answers_of "datetime_difference" n.now) out.new result }
{
    let one = date_time(n, 0);
    reply(out, at, one.diff(date_time(n, 9), unit(n, 18)))
}

pub fn datetime_from_instant(n: &[i128], out: &mut [u8], at: usize) -> usize
    requires { Ready (takes_of "datetime_from_instant") n.now at out.old }
    ensures { Replied out.old at (answers_of "datetime_from_instant" n.now) out.new result }
{
    reply(
        out,
        at,
        IsoDateTime::from_epoch_nanos(number(n, 0), number(n, 1), number(n, 2)),
    )
}
