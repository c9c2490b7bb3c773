// Numbers written into a lent buffer, from a place of it on. Each function returns the place after what it wrote.
// A buffer and a place in it, as the public calls of date text lend slices of any length, and promise every byte (`Wrote`).
ghost use Rattle.std.specs.Prelude.{◌≡◌, [], ◌∷◌, ◌+◌, ◌≤◌, ◌<◌, pos, length};
ghost use Rattle.lines.specs.Text.{space};
ghost use Rattle.writing.specs.Text.{digits, decimal};
ghost use Rattle.writing.specs.Wrote.{Wrote};

// Writes one byte.
pub fn put_byte(out: &mut [u8], at: usize, b: u8) -> usize
    requires { at < length out.old }
    ensures { Wrote out.old at (b ∷ []) out.new result }
{
    out[at] = b;
    at + 1
}

// Writes a value: a space, and a whole number in its one shortest form.
// 21 bytes hold every i64 so; -2^63 takes them all.
pub fn put_integer(out: &mut [u8], at: usize, z: i64) -> usize
    requires { at + 21 ≤ length out.old }
    ensures { Wrote out.old at (space ∷ decimal z) out.new result × (result ≤ at + 21) }
{
    let mut next = put_byte(out, at, b' ');
    if z < 0 {
        next = put_byte(out, next, b'-');
    }
    put_digits(out, next, z.unsigned_abs())
}

// Writes a value that is never negative: a space, and a natural.
// 21 bytes hold every u64 so.
pub fn put_natural(out: &mut [u8], at: usize, n: u64) -> usize
    requires { at + 21 ≤ length out.old }
    ensures { Wrote out.old at (space ∷ decimal (pos n)) out.new result × (result ≤ at + 21) }
{
    let start = put_byte(out, at, b' ');
    put_digits(out, start, n)
}

// Writes n, from its last digit to its first, in just as much room as it takes.
pub fn put_digits(out: &mut [u8], at: usize, n: u64) -> usize
    requires { at + length (digits 20 n) ≤ length out.old }
    ensures { Wrote out.old at (digits 20 n) out.new result }
{
    let end = at + digit_count(n);
    let mut left = n;
    for i in (at..end).rev() {
        out[i] = b'0' + (left % 10) as u8;
        left /= 10;
    }
    end
}

// How many digits n has.
fn digit_count(n: u64) -> usize
    ensures { result ≡ length (digits 20 n) }
{
    n.max(1).ilog10() as usize + 1
}
