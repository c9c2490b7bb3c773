// The calls on date durations: the numbers of a request as the call's parameters, the call, and its answer as the reply.
ghost use Rattle.replies.specs.Replies.{Replied};
ghost use Rattle.calls.specs.Table.{takes_of, answers_of};
ghost use Rattle.calls.specs.Ready.{Ready};

use date_duration::DateDuration;
use parameters::inner::number;
use parameters::inner::values::{duration, part};
use replies::inner::reply;

pub fn duration_new(n: &[i128], out: &mut [u8], at: usize) -> usize
    requires { Ready (takes_of "duration_new") n.now at out.old }
    ensures { Replied out.old at (answers_of "duration_new" n.now) out.new result }
{
    reply(
        out,
        at,
        DateDuration::new(number(n, 0), number(n, 1), number(n, 2), number(n, 3)),
    )
}

pub fn duration_sign(n: &[i128], out: &mut [u8], at: usize) -> usize
    requires { Ready (takes_of "duration_sign") n.now at out.old }
    ensures { Replied out.old at (answers_of "duration_sign" n.now) out.new result }
{
    let duration = duration(n, 0);
    reply(out, at, duration.sign())
}

pub fn duration_abs(n: &[i128], out: &mut [u8], at: usize) -> usize
    requires { Ready (takes_of "duration_abs") n.now at out.old }
    ensures { Replied out.old at (answers_of "duration_abs" n.now) out.new result }
{
    let duration = duration(n, 0);
    reply(out, at, duration.abs())
}

pub fn duration_negated(n: &[i128], out: &mut [u8], at: usize) -> usize
    requires { Ready (takes_of "duration_negated") n.now at out.old }
    ensures { Replied out.old at (answers_of "duration_negated" n.now) out.new result }
{
    let duration = duration(n, 0);
    reply(out, at, duration.negated())
}

pub fn duration_adjust(n: &[i128], out: &mut [u8], at: usize) -> usize
    requires { Ready (takes_of "duration_adjust") n.now at out.old }
    ensures { Replied out.old at (answers_of "duration_adjust" n.now) out.new result }
{
    let duration = duration(n, 0);
    reply(
        out,
        at,
        duration.adjust(number(n, 4), part(n, 5), part(n, 7)),
    )
}
