// The calls on dates: the numbers of a request as the call's parameters, the call, and its answer as the reply.
ghost use Rattle.replies.specs.Replies.{Replied};
ghost use Rattle.calls.specs.Table.{takes_of, answers_of};
ghost use Rattle.calls.specs.Ready.{Ready};

use iso_date::IsoDate;
use parameters::inner::number;
use parameters::inner::values::{date, overflow};
use replies::inner::reply;

pub fn month_length(n: &[i128], out: &mut [u8], at: usize) -> usize
    requires { Ready (takes_of "month_length") n.now at out.old }
    ensures { Replied out.old at (answers_of "month_length" n.now) out.new result }
{
    reply(
        out,
        at,
        iso_date::iso_days_in_month(number(n, 0), number(n, 1)),
    )
}

pub fn date_to_day(n: &[i128], out: &mut [u8], at: usize) -> usize
    requires { Ready (takes_of "date_to_day") n.now at out.old }
    ensures { Replied out.old at (answers_of "date_to_day" n.now) out.new result }
{
    let date = date(n, 0);
    reply(out, at, date.to_epoch_days())
}

pub fn day_to_date(n: &[i128], out: &mut [u8], at: usize) -> usize
    requires { Ready (takes_of "day_to_date") n.now at out.old }
    ensures { Replied out.old at (answers_of "day_to_date" n.now) out.new result }
{
    reply(out, at, IsoDate::from_epoch_days(number(n, 0)))
}

pub fn balance_year_month(n: &[i128], out: &mut [u8], at: usize) -> usize
    requires { Ready (takes_of "balance_year_month") n.now at out.old }
    ensures { Replied out.old at (answers_of "balance_year_month" n.now) out.new result }
{
    reply(
        out,
        at,
        Ok(iso_date::balance_iso_year_month(number(n, 0), number(n, 1))),
    )
}

pub fn regulate_date(n: &[i128], out: &mut [u8], at: usize) -> usize
    requires { Ready (takes_of "regulate_date") n.now at out.old }
    ensures { Replied out.old at (answers_of "regulate_date" n.now) out.new result }
{
    let date = date(n, 0);
    reply(
        out,
        at,
        IsoDate::regulate(date.year, date.month, date.day, overflow(n, 3)),
    )
}

pub fn make_date(n: &[i128], out: &mut [u8], at: usize) -> usize
    requires { Ready (takes_of "make_date") n.now at out.old }
    ensures { Replied out.old at (answers_of "make_date" n.now) out.new result }
{
    let date = date(n, 0);
    reply(
        out,
        at,
        IsoDate::new_with_overflow(date.year, date.month, date.day, overflow(n, 3)),
    )
}

pub fn date_limits(n: &[i128], out: &mut [u8], at: usize) -> usize
    requires { Ready (takes_of "date_limits") n.now at out.old }
    ensures { Replied out.old at (answers_of "date_limits" n.now) out.new result }
{
    let date = date(n, 0);
    reply(out, at, date.check_within_limits())
}

pub fn balance_date(n: &[i128], out: &mut [u8], at: usize) -> usize
    requires { Ready (takes_of "balance_date") n.now at out.old }
    ensures { Replied out.old at (answers_of "balance_date" n.now) out.new result }
{
    reply(
        out,
        at,
        IsoDate::try_balance(number(n, 0), number(n, 1), number(n, 2)),
    )
}
