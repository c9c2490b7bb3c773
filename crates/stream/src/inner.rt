// An input taken byte by byte, and each line of it answered where it ends.
ghost use Rattle.std.specs.Prelude.{◌≡◌, List, ℕ, ◌+◌, ◌≤◌, ◌<◌, length};
ghost use Rattle.writing.specs.Wrote.{Wrote};
ghost use Rattle.requests.specs.Requests.{response_to};
ghost use Rattle.stream.specs.Stream.{last_answer, response_room, buffered, joined, kept, Holds, Inside, Stops, Took};

use requests::inner::respond;
use writing::inner::put_byte;

// What is kept of a line that has not ended: so many bytes of it stand at the start of the line buffer, and are all of it, or the line
// outgrew that, however many stand there.
#[derive(Clone, Copy, Debug, PartialEq, Eq)]
pub enum Pending {
    Buffered(usize),
    Outgrown(usize),
}

// How far the taking of a block has come: the place of the next byte, the line that has not ended, and how much of the output buffer
// is filled.
#[derive(Clone, Copy, Debug, PartialEq, Eq)]
pub struct Progress {
    pub at: usize,
    pub pending: Pending,
    pub filled: usize,
}

// Room enough for any response.
const ROOM: usize = 256;

// Takes the bytes of the block from a place on, and answers each line that ends among them. It stops at the block's end, and before
// it where the output buffer has no room for one more response.
// The line buffer is as long as the longest request. The block and the output buffer are lent in any length, and to `end_input` the line
// buffer is too, so the buffers stand beside the state.
pub fn take_lines(block: &[u8], line: &mut [u8], out: &mut [u8], s: Progress) -> Progress
    requires { Inside block.now line.old out.old s }
    ensures took { Took block.now line.old out.old s line.new out.new result }
    ensures stops { Stops block.now out.old result }
{
    let mut state = s;
    while state.at < block.len() {
        if out.len() - state.filled < ROOM {
            return state;
        }
        state = take_byte(block, line, out, state);
    }
    state
}

// Answers a last line that no newline ends, where there is one, and returns how much of the output buffer is filled then.
pub fn end_input(line: &[u8], out: &mut [u8], s: Progress) -> usize
    requires { (buffered s.pending ≤ length line.now) × (s.filled + response_room ≤ length out.old) }
    ensures inside { result ≤ length out.old }
    ensures wrote { (pending : List ℕ) → Holds pending (kept line.now s.pending) →
        Wrote out.old s.filled (last_answer pending) out.new result }
{
    match s.pending {
        Pending::Buffered(0) => s.filled,
        _ => end_line(line, out, s.filled, s.pending),
    }
}

// Takes the next byte: a newline ends the line, which is answered; any other byte joins it.
fn take_byte(block: &[u8], line: &mut [u8], out: &mut [u8], s: Progress) -> Progress
    requires { Inside block.now line.old out.old s × (s.at < length block.now) × (s.filled + response_room ≤ length out.old) }
    ensures { (result.at ≡ s.at + 1) × Took block.now line.old out.old s line.new out.new result }
{
    let byte = block[s.at];
    let at = s.at + 1;
    if byte == b'\n' {
        let filled = end_line(line, out, s.filled, s.pending);
        return Progress {
            at,
            pending: Pending::Buffered(0),
            filled,
        };
    }
    Progress {
        at,
        pending: s.pending.join(line, byte),
        filled: s.filled,
    }
}

// Answers the line that has come to its end. One that outgrew the line buffer is longer than any request.
fn end_line(line: &[u8], out: &mut [u8], filled: usize, pending: Pending) -> usize
    requires { (buffered pending ≤ length line.now) × (filled + response_room ≤ length out.old) }
    ensures inside { result ≤ length out.old }
    ensures wrote { (text : List ℕ) → Holds text (kept line.now pending) → Wrote out.old filled (response_to text) out.new result }
{
    match pending {
        Pending::Buffered(have) => respond(&line[..have], out, filled),
        Pending::Outgrown(_) => {
            let end = put_byte(out, filled, b'?');
            put_byte(out, end, b'\n')
        }
    }
}

impl Pending {
    // A byte joins the line, and is stored where the line buffer has room for it.
    fn join(self, line: &mut [u8], byte: u8) -> Pending
        requires { buffered self ≤ length line.old }
        ensures { kept line.new result ≡ joined line.old self byte }
    {
        let (Pending::Buffered(have) | Pending::Outgrown(have)) = self;
        if have >= line.len() {
            return Pending::Outgrown(have);
        }
        line[have] = byte;
        match self {
            Pending::Buffered(_) => Pending::Buffered(have + 1),
            Pending::Outgrown(_) => Pending::Outgrown(have + 1),
        }
    }
}
