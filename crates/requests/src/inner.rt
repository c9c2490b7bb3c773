// The line that answers a line, written into a lent buffer.
ghost use Rattle.std.specs.Prelude.{◌≡◌, ◌+◌, ◌≤◌, length, take, MatchOption};
ghost use Rattle.lines.specs.Text.{word};
ghost use Rattle.writing.specs.Wrote.{Wrote};
ghost use Rattle.replies.specs.Replies.{Replied};
ghost use Rattle.calls.specs.Table.{calls, place_in};
ghost use Rattle.calls.specs.Ready.{Ready};
ghost use Rattle.requests.specs.Requests.{reply_to, response_to, line_room};
ghost use Rattle.requests.specs.Entries.{row_of, Named};

use calls::inner::{date_times, dates, durations, sums, times};
use lines::word_end;
use parameters::Numbers;
use parameters::inner::read_numbers;
use text_calls::inner::{answer_text, write_date, write_datetime, write_time};
use writing::inner::put_byte;

// A longer line is no request.
const LONGEST: usize = 1000;

// The calls that take numbers.
#[derive(Clone, Copy, Debug, PartialEq, Eq)]
enum Call {
    MonthLength,
    DateToDay,
    DayToDate,
    BalanceYearMonth,
    RegulateDate,
    MakeDate,
    DateLimits,
    BalanceDate,
    RegulateTime,
    BalanceTime,
    TimeDifference,
    RoundNumber,
    RoundNumberAsIfPositive,
    RoundTime,
    DurationNew,
    DurationSign,
    DurationAbs,
    DurationNegated,
    DurationAdjust,
    DateSum,
    DateDifference,
    DateTimeLimits,
    BalanceDateTime,
    RoundDateTime,
    DateTimeDifference,
    DateTimeFromInstant,
    WriteDate,
    WriteTime,
    WriteDateTime,
}

// The name by which a request asks for a call, and a letter for each parameter (`parameters::inner::bounds_of` has the letters). Letters,
// and no list of kinds: a word says what would be a line for each parameter. Literals below, since a static calls no function.
#[derive(Clone, Copy)]
struct Entry {
    name: &'static [u8],
    letters: &'static [u8],
    call: Call,
}

static ENTRIES: [Entry; 29] = [
    Entry {
        name: b"month_length",
        letters: b"ib",
        call: Call::MonthLength,
    },
    Entry {
        name: b"date_to_day",
        letters: b"ibb",
        call: Call::DateToDay,
    },
    Entry {
        name: b"day_to_date",
        letters: b"l",
        call: Call::DayToDate,
    },
    Entry {
        name: b"balance_year_month",
        letters: b"ii",
        call: Call::BalanceYearMonth,
    },
    Entry {
        name: b"regulate_date",
        letters: b"ibbf",
        call: Call::RegulateDate,
    },
    Entry {
        name: b"make_date",
        letters: b"ibbf",
        call: Call::MakeDate,
    },
    Entry {
        name: b"date_limits",
        letters: b"ibb",
        call: Call::DateLimits,
    },
    Entry {
        name: b"balance_date",
        letters: b"iil",
        call: Call::BalanceDate,
    },
    Entry {
        name: b"regulate_time",
        letters: b"bbbsssf",
        call: Call::RegulateTime,
    },
    Entry {
        name: b"balance_time",
        letters: b"llllll",
        call: Call::BalanceTime,
    },
    Entry {
        name: b"time_difference",
        letters: b"bbbsssbbbsss",
        call: Call::TimeDifference,
    },
    Entry {
        name: b"round_number",
        letters: b"lwm",
        call: Call::RoundNumber,
    },
    Entry {
        name: b"round_number_as_if_positive",
        letters: b"lwm",
        call: Call::RoundNumberAsIfPositive,
    },
    Entry {
        name: b"round_time",
        letters: b"bbbsssuwm",
        call: Call::RoundTime,
    },
    Entry {
        name: b"duration_new",
        letters: b"llll",
        call: Call::DurationNew,
    },
    Entry {
        name: b"duration_sign",
        letters: b"llll",
        call: Call::DurationSign,
    },
    Entry {
        name: b"duration_abs",
        letters: b"llll",
        call: Call::DurationAbs,
    },
    Entry {
        name: b"duration_negated",
        letters: b"llll",
        call: Call::DurationNegated,
    },
    Entry {
        name: b"duration_adjust",
        letters: b"lllllflfl",
        call: Call::DurationAdjust,
    },
    Entry {
        name: b"date_sum",
        letters: b"ibbllllf",
        call: Call::DateSum,
    },
    Entry {
        name: b"date_difference",
        letters: b"ibbibbu",
        call: Call::DateDifference,
    },
    Entry {
        name: b"datetime_limits",
        letters: b"ibbbbbsss",
        call: Call::DateTimeLimits,
    },
    Entry {
        name: b"balance_datetime",
        letters: b"iilllllll",
        call: Call::BalanceDateTime,
    },
    Entry {
        name: b"round_datetime",
        letters: b"ibbbbbsssuwm",
        call: Call::RoundDateTime,
    },
    Entry {
        name: b"datetime_difference",
        letters: b"ibbbbbsssibbbbbsssu",
        call: Call::DateTimeDifference,
    },
    Entry {
        name: b"datetime_from_instant",
        letters: b"lll",
        call: Call::DateTimeFromInstant,
    },
    Entry {
        name: b"write_date",
        letters: b"ibbr",
        call: Call::WriteDate,
    },
    Entry {
        name: b"write_time",
        letters: b"bbbsssr",
        call: Call::WriteTime,
    },
    Entry {
        name: b"write_datetime",
        letters: b"ibbbbbsssr",
        call: Call::WriteDateTime,
    },
];

// Writes the response from `at` on and returns the place after it. 256 bytes hold any.
// What is lent has any length (`respond`), so the place stands beside it.
pub fn respond(line: &[u8], out: &mut [u8], at: usize) -> usize
    requires { at + 256 ≤ length out.old }
    ensures { Wrote out.old at (response_to line.now) out.new result }
{
    let end = reply(line, out, at);
    put_byte(out, end, b'\n')
}

// Writes what stands before the newline of a response.
fn reply(line: &[u8], out: &mut [u8], at: usize) -> usize
    requires { at + 255 ≤ length out.old }
    ensures { Wrote out.old at (reply_to line.now) out.new result × (result ≤ at + 255) }
{
    if line.is_empty() {
        return at;
    }
    if line.len() > LONGEST {
        return put_byte(out, at, b'?');
    }
    let end = word_end(line, 0);
    let Some(entry) = entry_named(&line[..end]) else {
        return answer_text(line, end, out, at);
    };
    entry.answer(line, end, out, at)
}

// The entry of the call that has the name.
fn entry_named(name: &[u8]) -> Option<&'static Entry>
    ensures { MatchOption result (place_in calls name.now ≡ length calls) (λ entry. Named name.now entry.now) }
{
    ENTRIES.iter().find(|entry| entry.name == name)
}

impl Entry {
    // What its call answers to the numbers of a line whose first word ends at `end`. The numbers live here alone: other lines need none.
    fn answer(&self, line: &[u8], end: usize, out: &mut [u8], at: usize) -> usize
        requires { (end ≡ length (word line.now)) × (1 ≤ length line.now) × (length line.now ≤ line_room) ×
            Named (take end line.now) self.now × (at + 255 ≤ length out.old) }
        ensures { Wrote out.old at (reply_to line.now) out.new result × (result ≤ at + 255) }
    {
        let mut numbers = Numbers::new();
        if !read_numbers(line, end, self.letters, &mut numbers) {
            return put_byte(out, at, b'?');
        }
        self.call.answer(numbers.as_slice(), out, at)
    }
}

impl Call {
    // What the call answers to its numbers.
    fn answer(self, n: &[i128], out: &mut [u8], at: usize) -> usize
        requires { Ready (row_of self).takes n.now at out.old }
        ensures { Replied out.old at ((row_of self).answers n.now) out.new result }
    {
        match self {
            Call::MonthLength => dates::month_length(n, out, at),
            Call::DateToDay => dates::date_to_day(n, out, at),
            Call::DayToDate => dates::day_to_date(n, out, at),
            Call::BalanceYearMonth => dates::balance_year_month(n, out, at),
            Call::RegulateDate => dates::regulate_date(n, out, at),
            Call::MakeDate => dates::make_date(n, out, at),
            Call::DateLimits => dates::date_limits(n, out, at),
            Call::BalanceDate => dates::balance_date(n, out, at),
            Call::RegulateTime => times::regulate_time(n, out, at),
            Call::BalanceTime => times::balance_time(n, out, at),
            Call::TimeDifference => times::time_difference(n, out, at),
            Call::RoundNumber => times::round_number(n, out, at),
            Call::RoundNumberAsIfPositive => times::round_number_as_if_positive(n, out, at),
            Call::RoundTime => times::round_time(n, out, at),
            Call::DurationNew => durations::duration_new(n, out, at),
            Call::DurationSign => durations::duration_sign(n, out, at),
            Call::DurationAbs => durations::duration_abs(n, out, at),
            Call::DurationNegated => durations::duration_negated(n, out, at),
            Call::DurationAdjust => durations::duration_adjust(n, out, at),
            Call::DateSum => sums::date_sum(n, out, at),
            Call::DateDifference => sums::date_difference(n, out, at),
            Call::DateTimeLimits => date_times::datetime_limits(n, out, at),
            Call::BalanceDateTime => date_times::balance_datetime(n, out, at),
            Call::RoundDateTime => date_times::round_datetime(n, out, at),
            Call::DateTimeDifference => date_times::datetime_difference(n, out, at),
            Call::DateTimeFromInstant => date_times::datetime_from_instant(n, out, at),
            Call::WriteDate => write_date(n, out, at),
            Call::WriteTime => write_time(n, out, at),
            Call::WriteDateTime => write_datetime(n, out, at),
        }
    }
}
