// Date text: dates, times and dates with a time, read from a lent text and written into a lent slice.
#![tactic(auto)]

ghost use Rattle.std.specs.Prelude.{◌≡◌, length};
ghost use Rattle.refusal.specs.Refusals.{answer_of};
ghost use Rattle.forms.specs.Pieces.{of_read};
ghost use Rattle.date_text.specs.Paper.{read_date, read_time, read_date_time, date_time_form, write_date, write_time, write_date_time};
ghost use Rattle.date_text.specs.Paper.{length_of, afterwards};

use date_forms::inner::{
    date_at, date_length, fraction_of, put_date, put_time, time_at, time_length,
};
use iso_date::IsoDate;
use iso_date_time::IsoDateTime;
use iso_time::IsoTime;
use refusal::Refusal;
use writing::inner::put_byte;

// The date that a text is: its form (9), its fields (1), the date limits (2).
#[tactic(auto, unfolding(crate::specs::Paper::read_date))]
pub fn read_date(text: &[u8]) -> Result<IsoDate, Refusal>
    ensures { answer_of result ≡ read_date text.now }
{
    let Some((found, [])) = date_at(text) else {
        return Err(Refusal::Form);
    };
    found.check_within_limits()?;
    Ok(found)
}

// The time that a text is: its form (9), its fields (1).
#[tactic(auto, unfolding(crate::specs::Paper::read_time))]
pub fn read_time(text: &[u8]) -> Result<IsoTime, Refusal>
    ensures { answer_of result ≡ read_time text.now }
{
    let Some((time, [])) = time_at(text) else {
        return Err(Refusal::Form);
    };
    if time.is_valid() {
        Ok(time)
    } else {
        Err(Refusal::Field)
    }
}

// The date with a time that a text is: its form (9), its fields (1), the limits of date and time (3).
#[tactic(auto, unfolding(crate::specs::Paper::read_date_time))]
pub fn read_datetime(text: &[u8]) -> Result<IsoDateTime, Refusal>
    ensures { answer_of result ≡ read_date_time text.now }
{
    let Some((read, [])) = date_time_at(text) else {
        return Err(Refusal::Form);
    };
    read.check_within_limits()?;
    Ok(read)
}

// A date, a T and a time off the front of a text.
#[tactic(auto, unfolding(crate::specs::Paper::date_time_form, forms::specs::Forms::marked))]
fn date_time_at(text: &[u8]) -> Option<(IsoDateTime, &[u8])>
    ensures { of_read result ≡ date_time_form text.now }
{
    let (date, rest) = date_at(text)?;
    let (time, rest) = time_at(rest.strip_prefix(b"T")?)?;
    Some((IsoDateTime { date, time }, rest))
}

// Writes the text of a date at the start of the slice and answers its length: the record (1, 2), then the room (10). A refusal changes no
// byte of the slice.
#[tactic(auto, using(crate::proofs::Answers::date_refused, crate::proofs::Answers::date_has_no_room, crate::proofs::Answers::date_written))]
pub fn write_date(date: IsoDate, out: &mut [u8]) -> Result<usize, Refusal>
    ensures { (answer_of result ≡ length_of (write_date date (length out.old))) ×
        (out.new ≡ afterwards out.old (write_date date (length out.old))) }
{
    date.check_within_limits()?;
    if out.len() < date_length(date) {
        return Err(Refusal::Room);
    }
    Ok(put_date(out, 0, date))
}

// Writes the text of a time at the start of the slice and answers its length: the record (1), then the room (10). A refusal changes no
// byte of the slice.
#[tactic(auto, using(crate::proofs::Answers::time_refused, crate::proofs::Answers::time_has_no_room, crate::proofs::Answers::time_written))]
pub fn write_time(time: IsoTime, out: &mut [u8]) -> Result<usize, Refusal>
    ensures { (answer_of result ≡ length_of (write_time time (length out.old))) ×
        (out.new ≡ afterwards out.old (write_time time (length out.old))) }
{
    if !time.is_valid() {
        return Err(Refusal::Field);
    }
    let fraction = fraction_of(time);
    if out.len() < time_length(fraction) {
        return Err(Refusal::Room);
    }
    Ok(put_time(out, 0, time, fraction))
}

// Writes the text of a date with a time at the start of the slice and answers its length: the record (1, 3), then the room (10). A
// refusal changes no byte of the slice.
#[tactic(auto, using(crate::proofs::Answers::stamp_refused, crate::proofs::Answers::stamp_has_no_room, crate::proofs::Answers::stamp_written))]
pub fn write_datetime(stamp: IsoDateTime, out: &mut [u8]) -> Result<usize, Refusal>
    ensures { (answer_of result ≡ length_of (write_date_time stamp (length out.old))) ×
        (out.new ≡ afterwards out.old (write_date_time stamp (length out.old))) }
{
    stamp.check_within_limits()?;
    let date = stamp.date;
    let time = stamp.time;
    let fraction = fraction_of(time);
    if out.len() < date_length(date) + 1 + time_length(fraction) {
        return Err(Refusal::Room);
    }
    let mark = put_date(out, 0, date);
    let start = put_byte(out, mark, b'T');
    let end = put_time(out, start, time, fraction);
    Ok(end)
}
