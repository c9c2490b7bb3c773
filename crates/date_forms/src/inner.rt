// A date or a time, read off the front of a text, or written at a place of one, as `writing::inner` writes.
ghost use Rattle.std.specs.Prelude.{◌≡◌, true, ◌+◌, ◌^◌, ◌≤◌, ◌<◌, length};
ghost use Rattle.writing.specs.Wrote.{Wrote};
ghost use Rattle.forms.specs.Forms.{padded, pointed};
ghost use Rattle.forms.specs.Pieces.{of_read, Trims};
ghost use Rattle.iso_time.specs.Proposal.{is_valid_time};
ghost use Rattle.date_forms.specs.Grammar.{year_form, date_form, time_form, clock_time, seconds};
ghost use Rattle.date_forms.specs.Texts.{year_text, date_text, time_text, billionths_of};

use forms::Trimmed;
use forms::inner::{
    put_fraction, put_marked, put_padded, read_digits, read_fraction, read_marked, trim,
};
use iso_date::IsoDate;
use iso_time::IsoTime;

// The last year that four digits say.
const FOUR_DIGITS: i32 = 9999;

// A year, a hyphen, a month, a hyphen and a day. Nothing says that there is such a date.
#[tactic(auto, unfolding(crate::specs::Grammar::date_form))]
pub fn date_at(text: &[u8]) -> Option<(IsoDate, &[u8])>
    ensures { of_read result ≡ date_form text.now }
{
    let (year, rest) = year_at(text)?;
    let (month, rest) = read_marked(rest, b'-', 2)?;
    let (day, rest) = read_marked(rest, b'-', 2)?;
    let date = IsoDate {
        year,
        month: month as u8,
        day: day as u8,
    };
    Some((date, rest))
}

// Four digits, or a sign and six; `-000000` is no year.
#[tactic(auto, unfolding(crate::specs::Grammar::year_form))]
fn year_at(text: &[u8]) -> Option<(i32, &[u8])>
    ensures { of_read result ≡ year_form text.now }
{
    let from_zero = read_digits(text, 4).or_else(|| read_marked(text, b'+', 6));
    if let Some((year, rest)) = from_zero {
        return Some((year as i32, rest));
    }
    let (size, rest) = read_marked(text, b'-', 6)?;
    if size == 0 {
        return None;
    }
    Some((-(size as i32), rest))
}

// Hours, a colon and minutes; then a colon and seconds, or not; and then a fraction, or not.
#[tactic(auto, unfolding(crate::specs::Grammar::time_form, crate::specs::Grammar::seconds_form))]
pub fn time_at(text: &[u8]) -> Option<(IsoTime, &[u8])>
    ensures { of_read result ≡ time_form text.now }
{
    let (hour, rest) = read_digits(text, 2)?;
    let (minute, rest) = read_marked(rest, b':', 2)?;
    let Some((second, rest)) = read_marked(rest, b':', 2) else {
        return Some((clock(hour, minute, 0, 0), rest));
    };
    let Some((billionths, rest)) = read_fraction(rest) else {
        return Some((clock(hour, minute, second, 0), rest));
    };
    Some((clock(hour, minute, second, billionths), rest))
}

// The time that the numbers of a text say. Second 60 counts as 59: there are no leap seconds here.
#[tactic(auto, unfolding(crate::specs::Grammar::clock_time))]
fn clock(hour: u64, minute: u64, second: u64, billionths: u64) -> IsoTime
    requires { ((hour < 100) × (minute < 100)) × ((second < 100) × (billionths < 10 ^ 9)) }
    ensures { result ≡ clock_time hour minute (seconds second billionths) }
{
    let read = if second == 60 { 59 } else { second };
    IsoTime {
        hour: hour as u8,
        minute: minute as u8,
        second: read as u8,
        millisecond: (billionths / 1_000_000) as u16,
        microsecond: (billionths / 1_000 % 1_000) as u16,
        nanosecond: (billionths % 1_000) as u16,
    }
}

// Writes a date, whatever stands in it.
#[tactic(auto, using(crate::proofs::Texts::date_length_is, forms::proofs::Padded::padded_length))]
pub fn put_date(out: &mut [u8], at: usize, date: IsoDate) -> usize
    requires { at + length (date_text date) ≤ length out.old }
    ensures { Wrote out.old at (date_text date) out.new result }
{
    let after_year = put_year(out, at, date.year);
    let after_month = put_marked(out, after_year, b'-', 2, date.month as u64);
    put_marked(out, after_month, b'-', 2, date.day as u64)
}

// Four digits where they are enough, else a sign and six.
#[tactic(auto, using(crate::proofs::Texts::year_length), unfolding(crate::specs::Texts::year_text))]
fn put_year(out: &mut [u8], at: usize, year: i32) -> usize
    requires { at + length (year_text year) ≤ length out.old }
    ensures { Wrote out.old at (year_text year) out.new result }
{
    let size = year.unsigned_abs() as u64;
    if (0..=FOUR_DIGITS).contains(&year) {
        return put_padded(out, at, 4, size);
    }
    let sign = if year < 0 { b'-' } else { b'+' };
    put_marked(out, at, sign, 6, size)
}

// How many bytes the text of a date has.
#[tactic(auto, using(crate::proofs::Texts::date_length_is, crate::proofs::Texts::year_length))]
pub fn date_length(date: IsoDate) -> usize
    ensures { (result ≡ length (date_text date)) × (result ≤ 13) }
{
    if (0..=FOUR_DIGITS).contains(&date.year) {
        10
    } else {
        13
    }
}

// Writes a time, whatever stands in it, with the digits of its fraction.
#[tactic(auto, using(crate::proofs::Texts::time_length_is, forms::proofs::Padded::padded_length, forms::proofs::Fractions::trims_written))]
pub fn put_time(out: &mut [u8], at: usize, time: IsoTime, fraction: Trimmed) -> usize
    requires { Trims (billionths_of time) fraction × (at + length (time_text time) ≤ length out.old) }
    ensures { Wrote out.old at (time_text time) out.new result }
{
    let after_hour = put_padded(out, at, 2, time.hour as u64);
    let after_minute = put_marked(out, after_hour, b':', 2, time.minute as u64);
    let after_second = put_marked(out, after_minute, b':', 2, time.second as u64);
    put_fraction(out, after_second, fraction)
}

// The digits of a valid time's fraction of a second.
#[tactic(auto, using(iso_time::proofs::Times::read_valid))]
pub fn fraction_of(time: IsoTime) -> Trimmed
    requires { is_valid_time time ≡ true }
    ensures { Trims (billionths_of time) result }
{
    let micros = time.millisecond as u64 * 1_000 + time.microsecond as u64;
    trim(micros * 1_000 + time.nanosecond as u64)
}

// How many bytes the text of a time with such a fraction has.
#[tactic(auto, using(crate::proofs::Texts::none_length, crate::proofs::Texts::some_length))]
pub fn time_length(fraction: Trimmed) -> usize
    requires { fraction.count ≤ 9 }
    ensures { (result ≡ 8 + length (pointed (padded fraction.count fraction.value))) × (result ≤ 18) }
{
    match fraction.count {
        0 => 8,
        count => count + 9,
    }
}
