// Sum and difference of dates: the numbers of a request as the call's parameters, the call, and its answer as the reply.
ghost use Rattle.replies.specs.Replies.{Replied};
ghost use Rattle.calls.specs.Table.{takes_of, answers_of};
ghost use Rattle.calls.specs.Ready.{Ready};

use parameters::inner::values::{date, duration, overflow, unit};
use replies::inner::reply;

pub fn date_sum(n: &[i128], out: &mut [u8], at: usize) -> usize
    requires { Ready (takes_of "date_sum") n.now at out.old }
    ensures { Replied out.old at (answers_of "date_sum" n.now) out.new result }
{
    reply(
        out,
        at,
        date_math::add_date_duration(date(n, 0), duration(n, 3), overflow(n, 7)),
    )
}

pub fn date_difference(n: &[i128], out: &mut [u8], at: usize) -> usize
    requires { Ready (takes_of "date_difference") n.now at out.old }
    ensures { Replied out.old at (answers_of "date_difference" n.now) out.new result }
{
    reply(
        out,
        at,
        date_math::diff_iso_date(date(n, 0), date(n, 3), unit(n, 6)),
    )
}
