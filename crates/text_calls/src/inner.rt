// The calls that read or write text: the text or the numbers of a request as the call's parameters, the call, and its answer as the reply.
ghost use Rattle.std.specs.Prelude.{◌≡◌, ◌+◌, ◌≤◌, length};
ghost use Rattle.lines.specs.Text.{word};
ghost use Rattle.writing.specs.Wrote.{Wrote};
ghost use Rattle.replies.specs.Replies.{Replied};
ghost use Rattle.calls.specs.Table.{takes_of, answers_of, text_calls};
ghost use Rattle.calls.specs.Ready.{Ready};
ghost use Rattle.text_calls.specs.Texts.{reply_by_text};
ghost use Rattle.text_calls.specs.Heads.{head_of, behind};

use parameters::inner::values::{date, date_time, room, time};
use refusal::Refusal;
use replies::inner::reply;
use writing::inner::{put_byte, put_digits};

// The bytes before a text that was written: a 0 and a space.
const HEAD: usize = 2;

// What the call that takes a text answers, where the first word of the line names one. Three names are told apart in a row: a table
// would have to hold functions, which no function here makes.
#[tactic(auto, using(crate::proofs::Names::inside))]
pub fn answer_text(line: &[u8], end: usize, out: &mut [u8], at: usize) -> usize
    requires { (end ≡ length (word line.now)) × (at + 255 ≤ length out.old) }
    ensures { Wrote out.old at (reply_by_text text_calls line.now) out.new result × (result ≤ at + 255) }
{
    if end == line.len() {
        return put_byte(out, at, b'?');
    }
    let name = &line[..end];
    let start = end + 1;
    let text = &line[start..];
    if name == b"read_date".as_slice() {
        return reply(out, at, date_text::read_date(text));
    }
    if name == b"read_time".as_slice() {
        return reply(out, at, date_text::read_time(text));
    }
    if name == b"read_datetime".as_slice() {
        return reply(out, at, date_text::read_datetime(text));
    }
    put_byte(out, at, b'?')
}

// The writers are lent the part of the reply's buffer where the text goes, as many bytes as the request says. What differs is the call
// itself; a trait over the three would be longer than they are.

pub fn write_date(n: &[i128], out: &mut [u8], at: usize) -> usize
    requires { Ready (takes_of "write_date") n.now at out.old }
    ensures { Replied out.old at (answers_of "write_date" n.now) out.new result }
{
    let date = date(n, 0);
    let start = at + HEAD;
    let end = start + room(n, 3);
    let answer = date_text::write_date(date, &mut out[start..end]);
    put_head(out, at, answer)
}

pub fn write_time(n: &[i128], out: &mut [u8], at: usize) -> usize
    requires { Ready (takes_of "write_time") n.now at out.old }
    ensures { Replied out.old at (answers_of "write_time" n.now) out.new result }
{
    let time = time(n, 0);
    let start = at + HEAD;
    let end = start + room(n, 6);
    let answer = date_text::write_time(time, &mut out[start..end]);
    put_head(out, at, answer)
}

pub fn write_datetime(n: &[i128], out: &mut [u8], at: usize) -> usize
    requires { Ready (takes_of "write_datetime") n.now at out.old }
    ensures { Replied out.old at (answers_of "write_datetime" n.now) out.new result }
{
    let stamp = date_time(n, 0);
    let start = at + HEAD;
    let end = start + room(n, 9);
    let answer = date_text::write_datetime(stamp, &mut out[start..end]);
    put_head(out, at, answer)
}

// Puts the 0 and the space before a text that was written, or the number of the refusal.
fn put_head(out: &mut [u8], at: usize, answer: Result<usize, Refusal>) -> usize
    requires { (at + 255 ≤ length out.old) × (behind answer ≤ 64) }
    ensures { Wrote out.old at (head_of answer) out.new (at + length (head_of answer)) ×
        ((result ≡ at + length (head_of answer) + behind answer) × (length (head_of answer) ≤ 20)) }
{
    match answer {
        Ok(n) => {
            let next = put_byte(out, at, b'0');
            let start = put_byte(out, next, b' ');
            start + n
        }
        Err(refusal) => put_digits(out, at, u64::from(refusal.number())),
    }
}
