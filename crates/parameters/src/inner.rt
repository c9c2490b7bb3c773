// The numbers of a request, and one of them as a value of its parameter's type.
pub mod values;

ghost use Rattle.std.specs.Prelude.{◌≡◌, false, ℤ, [], ◌∷◌, ◌≤◌, ◌≤ℤ◌, drop, length, nat_abs};
ghost use Rattle.lines.specs.Text.{number_of, within};
ghost use Rattle.lines.specs.Meaning.{of_number};
ghost use Rattle.parameters.specs.Kinds.{Kind, signed, unsigned, arguments};
ghost use Rattle.parameters.specs.Meaning.{Reads, ReadsInto, Holds, numbers_in, at};
ghost use Rattle.parameters.specs.Letters.{letter_kind, letters_kinds, bounds_of};

use crate::{Bounds, Numbers};
use lines::{number_within, read_number, word_end};

// The numbers of a line from a place of it on, where a space and a number follow for each letter, each number is of its letter's
// type, and nothing follows them; else none, as the line is no request. The place is that after a word.
pub fn numbers_of(line: &[u8], from: usize, letters: &[u8]) -> Option<Numbers>
    requires { (from ≤ length line.now) × (length letters.now ≤ 24) }
    ensures { Reads result (arguments (letters_kinds letters.now) (drop from line.now)) }
{
    let mut numbers = Numbers::new();
    if read_numbers(line, from, letters, &mut numbers) {
        Some(numbers)
    } else {
        None
    }
}

// The same, put into numbers that are none yet, and whether the line is a request: so the cells are copied nowhere.
pub fn read_numbers(line: &[u8], from: usize, letters: &[u8], numbers: &mut Numbers) -> bool
    requires { (from ≤ length line.now) × (length letters.now ≤ 24) × (numbers.old.count ≡ 0) }
    ensures { ReadsInto numbers.old result numbers.new (arguments (letters_kinds letters.now) (drop from line.now)) }
{
    let mut at = from;
    for &letter in letters {
        if at == line.len() {
            return no_numbers(numbers);
        }
        let start = at + 1;
        at = word_end(line, start);
        let Some(number) = number_of(&line[start..at], letter) else {
            return no_numbers(numbers);
        };
        numbers.push(number);
    }
    if at < line.len() {
        return no_numbers(numbers);
    }
    true
}

// No numbers: the line is no request.
fn no_numbers(numbers: &mut Numbers) -> bool
    ensures { (result ≡ false) × (numbers_in numbers.new ≡ []) }
{
    *numbers = Numbers::new();
    false
}

// The number that a word is, where it is of the letter's type.
fn number_of(word: &[u8], letter: u8) -> Option<i128>
    ensures { of_number result ≡ within (letter_kind letter).low (letter_kind letter).high (number_of word.now) }
{
    let Bounds { below, high } = bounds_of(letter);
    number_within(read_number(word), below, high)
}

// i and l: 32 and 64 bits with a sign. b, s and w: 8, 16 and 64 bits without.
// f: a flag. m: a rounding mode. r: the room in a slice that is lent. u, and any other letter: a unit.
#[tactic(auto, unfolding(crate::specs::Letters::bounds_of))]
fn bounds_of(letter: u8) -> Bounds
    ensures { result ≡ bounds_of letter }
{
    match letter {
        b'i' => Bounds {
            below: 0x8000_0000,
            high: 0x7fff_ffff,
        },
        b'l' => Bounds {
            below: 0x8000_0000_0000_0000,
            high: 0x7fff_ffff_ffff_ffff,
        },
        b'b' => Bounds {
            below: 0,
            high: 255,
        },
        b's' => Bounds {
            below: 0,
            high: 65_535,
        },
        b'w' => Bounds {
            below: 0,
            high: u64::MAX,
        },
        b'f' => Bounds { below: 0, high: 1 },
        b'm' => Bounds { below: 0, high: 8 },
        b'r' => Bounds { below: 0, high: 64 },
        _ => Bounds { below: 0, high: 9 },
    }
}

// A type of numbers that a parameter can have.
pub trait Parameter {
    // Which numbers the type holds.
    ghost kind: { Kind };

    // The value that a number is, where the type holds it.
    ghost value: { ℤ → Self };

    // The value of a number.
    fn of(number: i128) -> Self
        requires { (kind.low ≤ℤ number) × (number ≤ℤ kind.high) }
        ensures { result ≡ value number };
}

// An impl for each type: what differs is the type alone, but no macro of a repository may write an impl.
impl Parameter for i64 {
    ghost kind = { signed 64 };

    ghost value = { λ z. z };

    fn of(number: i128) -> i64 {
        number as i64
    }
}

impl Parameter for i32 {
    ghost kind = { signed 32 };

    ghost value = { λ z. z };

    fn of(number: i128) -> i32 {
        number as i32
    }
}

impl Parameter for u64 {
    ghost kind = { unsigned 64 };

    ghost value = { nat_abs };

    fn of(number: i128) -> u64 {
        number as u64
    }
}

impl Parameter for u16 {
    ghost kind = { unsigned 16 };

    ghost value = { nat_abs };

    fn of(number: i128) -> u16 {
        number as u16
    }
}

impl Parameter for u8 {
    ghost kind = { unsigned 8 };

    ghost value = { nat_abs };

    fn of(number: i128) -> u8 {
        number as u8
    }
}

// The i-th number, from 0, as a value of its type.
pub fn number<T: Parameter>(n: &[i128], i: usize) -> T
    requires { Holds (T.kind ∷ []) n.now i }
    ensures { result ≡ T.value (at n.now i) }
{
    T::of(n[i])
}
