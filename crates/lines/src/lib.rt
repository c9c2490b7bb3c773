// The text of a line: where a word of it ends, and which words are numbers.
// Nothing of calendars.
#![tactic(auto)]

ghost use Rattle.std.specs.Prelude.{◌≡◌, cond, ◌&&◌, ◌+◌, ◌^◌, ltb, pos, neg_ℤ, length, drop};
ghost use Rattle.lines.specs.Text.{word, all_digits, value_from, natural_of, number_of, within, number, none};
ghost use Rattle.lines.specs.Meaning.{of_number, of_natural};

// What stands between two words.
const SPACE: u8 = b' ';

// The size of the smallest i64, -2^63.
const SMALLEST: u64 = 0x8000_0000_0000_0000;

// Where the word that starts at a place of the line ends: at the first space from there on, or at the line's end.
// Past the line's end there is no word: it ends where it starts.
#[tactic(auto, using(crate::proofs::Words::word_ends, crate::proofs::Words::word_more, crate::proofs::Words::word_past))]
pub fn word_end(line: &[u8], from: usize) -> usize
    ensures { result ≡ from + length (word (drop from line.now)) }
{
    for at in from..line.len() {
        if line[at] == SPACE {
            return at;
        }
    }
    line.len().max(from)
}

// The number whose one shortest form the text is: a natural below 2^64, or a number from -2^63 to -1.
// Any other text is no number, as nothing, `+1`, `01` and `-0` are.
pub fn read_number(text: &[u8]) -> Option<i128>
    ensures { of_number result ≡ number_of text.now }
{
    let [b'-', digits @ ..] = text else {
        return read_natural(text).map(i128::from);
    };
    let size = read_natural(digits)?;
    if size == 0 || SMALLEST < size {
        return None;
    }
    Some(-i128::from(size))
}

// The number, where it lies from -below to high; none, where it lies outside or is none.
pub fn number_within(x: Option<i128>, below: u64, high: u64) -> Option<i128>
    ensures { of_number result ≡ within (neg_ℤ (pos below)) (pos high) (of_number x) }
{
    let low = -i128::from(below);
    let high = i128::from(high);
    x.filter(|&n| low <= n && n <= high)
}

// The natural below 2^64 whose shortest form the text is, or none.
fn read_natural(text: &[u8]) -> Option<u64>
    ensures { of_natural result ≡ natural_of text.now }
{
    match text {
        [] | [b'0', _, ..] => None,
        _ => digits_value(text),
    }
}

// The value of a text of digits alone, where it is below 2^64. Zeros before it do not matter here.
fn digits_value(text: &[u8]) -> Option<u64>
    ensures { of_natural result ≡ cond (all_digits text.now && ltb (value_from 0 text.now) (2 ^ 64))
        (number (pos (value_from 0 text.now))) none }
{
    let mut value: u64 = 0;
    for &b in text {
        if !b.is_ascii_digit() {
            return None;
        }
        value = value.checked_mul(10)?.checked_add(u64::from(b - b'0'))?;
    }
    Some(value)
}
