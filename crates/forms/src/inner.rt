// Pieces of a text, read off its front or written at a place of it: digits, a byte with digits behind it, a fraction.
// Nothing of calendars.
//
// A writer is handed a place with the slice, for the reason that `writing::inner` gives.
ghost use Rattle.std.specs.Prelude.{◌≡◌, ◌∷◌, ◌+◌, ◌^◌, ◌≤◌, ◌<◌, length, IfSome};
ghost use Rattle.writing.specs.Wrote.{Wrote};
ghost use Rattle.forms.specs.Forms.{then_read, marked, digit, digits, padded, run, filled, fraction, pointed};
ghost use Rattle.forms.specs.Pieces.{of_read, Trims};

use crate::Trimmed;
use writing::inner::put_byte;

// n digits, as the number that they say. 64 bits hold any number of 18.
#[tactic(auto, using(crate::proofs::Digits::no_digit, crate::proofs::Digits::next_digit, crate::proofs::Digits::grows), unfolding(crate::specs::Forms::digits))]
pub fn read_digits(text: &[u8], n: usize) -> Option<(u64, &[u8])>
    requires { n ≤ 18 }
    ensures takes { of_read result ≡ digits n text.now }
    ensures small { IfSome result (λ p. p.0 < 10 ^ n) }
{
    let mut value = 0;
    let mut rest = text;
    for _ in 0..n {
        let (digit, after) = read_digit(rest)?;
        value = 10 * value + digit;
        rest = after;
    }
    Some((value, rest))
}

#[tactic(auto, unfolding(crate::specs::Forms::digit))]
fn read_digit(text: &[u8]) -> Option<(u64, &[u8])>
    ensures takes { of_read result ≡ digit text.now }
    ensures small { IfSome result (λ p. p.0 < 10) }
{
    let (b, rest) = text.split_first()?;
    if !b.is_ascii_digit() {
        return None;
    }
    Some(((*b - b'0') as u64, rest))
}

// A byte, and n digits behind it.
#[tactic(auto, unfolding(crate::specs::Forms::marked))]
pub fn read_marked(text: &[u8], mark: u8, n: usize) -> Option<(u64, &[u8])>
    requires { n ≤ 18 }
    ensures takes { of_read result ≡ marked mark (digits n) text.now }
    ensures small { IfSome result (λ p. p.0 < 10 ^ n) }
{
    read_digits(text.strip_prefix(&[mark])?, n)
}

// A point and one to nine digits, as billionths.
#[tactic(auto, unfolding(crate::specs::Forms::fraction, crate::specs::Forms::marked))]
pub fn read_fraction(text: &[u8]) -> Option<(u64, &[u8])>
    ensures takes { of_read result ≡ fraction text.now }
    ensures small { IfSome result (λ p. p.0 < 10 ^ 9) }
{
    billionths(text.strip_prefix(b".")?)
}

// All digits that stand there, as billionths, where there are one to nine. A tenth ends the walk.
#[tactic(auto, using(crate::proofs::Fractions::filled_small), unfolding(crate::specs::Forms::padded))]
fn billionths(text: &[u8]) -> Option<(u64, &[u8])>
    ensures takes { of_read result ≡ then_read (run text.now) filled }
    ensures small { IfSome result (λ p. p.0 < 10 ^ 9) }
{
    let mut value = 0;
    let mut count = 0;
    for b in text.iter().take_while(|b| b.is_ascii_digit()).take(10) {
        value = 10 * value + (*b - b'0') as u64;
        count += 1;
    }
    if count == 0 || 9 < count {
        return None;
    }
    Some((value * 10u64.pow(9 - count as u32), &text[count..]))
}

// Writes the last n digits of a number, from the last to the first.
#[tactic(auto, using(crate::proofs::Padded::put_digit))]
pub fn put_padded(out: &mut [u8], at: usize, n: usize, number: u64) -> usize
    requires { at + n ≤ length out.old }
    ensures { Wrote out.old at (padded n number) out.new result }
{
    let mut left = number;
    for i in (0..n).rev() {
        out[at + i] = b'0' + (left % 10) as u8;
        left /= 10;
    }
    at + n
}

// Writes a byte, and n digits behind it.
pub fn put_marked(out: &mut [u8], at: usize, mark: u8, n: usize, number: u64) -> usize
    requires { at + 1 + n ≤ length out.old }
    ensures { Wrote out.old at (mark ∷ padded n number) out.new result }
{
    let next = put_byte(out, at, mark);
    put_padded(out, next, n, number)
}

// The nine digits of so many billionths, without the zeros at their end.
#[tactic(auto, using(crate::proofs::Fractions::tenth, crate::proofs::Fractions::trim_more, crate::proofs::Fractions::trim_stops, crate::proofs::Fractions::trim_over))]
pub fn trim(billionths: u64) -> Trimmed
    requires { billionths < 10 ^ 9 }
    ensures { Trims billionths result }
{
    let mut value = billionths;
    for count in (1..=9).rev() {
        if value % 10 != 0 {
            return Trimmed { count, value };
        }
        value /= 10;
    }
    Trimmed { count: 0, value }
}

// Writes a point and the digits of a fraction, or nothing where there are none.
#[tactic(auto, using(crate::proofs::Padded::padded_length, crate::proofs::Fractions::pointed_none, crate::proofs::Fractions::pointed_some, writing::proofs::Writing::nothing))]
pub fn put_fraction(out: &mut [u8], at: usize, f: Trimmed) -> usize
    requires { at + length (pointed (padded f.count f.value)) ≤ length out.old }
    ensures { Wrote out.old at (pointed (padded f.count f.value)) out.new result }
{
    if f.count == 0 {
        return at;
    }
    put_marked(out, at, b'.', f.count, f.value)
}
