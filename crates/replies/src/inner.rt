// An answer as a reply, written into a lent buffer from a place of it on: a 0 with the answer's values, or a refusal's number. The calls
// that write text are lent slices of any length and promise every byte of them, so a writer here too is handed the slice and the place
// where it begins, and hands back the place after what it wrote.
pub mod kinds;

ghost use Rattle.std.specs.Prelude.{ℕ, ◌+◌, ◌*◌, ◌≤◌, List, ℤ, length};
ghost use Rattle.refusal.specs.Answer.{refused};
ghost use Rattle.refusal.specs.Refusals.{answer_of};
ghost use Rattle.writing.specs.Text.{spaced};
ghost use Rattle.writing.specs.Wrote.{Wrote};
ghost use Rattle.replies.specs.Replies.{Replied, shown};

use refusal::Refusal;
use writing::inner::{put_byte, put_digits};

// What an answer carries, as the numbers of a reply.
pub trait Values {
    // The numbers in their order.
    ghost values: { Self → List ℤ };

    // Writes them, each after a space; 21 bytes hold one.
    fn put(self, out: &mut [u8], at: usize) -> usize
        requires { at + 21 * length (values self) ≤ length out.old }
        ensures { Wrote out.old at (spaced (values self)) out.new result × (result ≤ at + 21 * length (values self)) };

    // So many have room in a reply.
    ghost few: { (x : Self) → length (values x) ≤ 12 };
}

// The reply that an answer or a refusal is. 255 bytes hold any.
pub fn reply<T: Values>(out: &mut [u8], at: usize, r: Result<T, Refusal>) -> usize
    requires { at + 255 ≤ length out.old }
    ensures { Replied out.old at (shown T.values (answer_of r)) out.new result }
{
    match r {
        Ok(answer) => {
            let next = put_byte(out, at, b'0');
            answer.put(out, next)
        }
        Err(e) => refusal(out, at, e.number()),
    }
}

// The reply that a refusal is, by its number, whatever number that is.
pub fn refusal(out: &mut [u8], at: usize, n: u8) -> usize
    requires { at + 255 ≤ length out.old }
    ensures { Replied out.old at (refused n) out.new result }
{
    put_digits(out, at, u64::from(n))
}
