// The console: reads requests from standard input to its end, and writes one line for each line read.
//
// How the bytes of an input are cut into lines is proved in the crate `stream`, what each line is answered in `requests`. Here the
// bytes are read and the answers written, and what the system refuses is told on standard error.
#![tactic(auto)]

ghost use Rattle.std.specs.Prelude.{◌≡◌, ◌≤◌, length, IfOk, Ok};
ghost use Rattle.requests.specs.Requests.{line_room};
ghost use Rattle.stream.specs.Stream.{response_room, buffered, kept, kept_after};
ghost use Rattle.stream.specs.declared.inner.Pending.TheVariants.{Buffered};

use std::io::{Error, ErrorKind, Read, Write};
use std::thread::yield_now;
use std::{error, fmt};
use stream::inner::{Pending, Progress, end_input, take_lines};

// What the system refused.
#[derive(Debug, Drop)]
enum Failure {
    Read(Error),
    Write(Error),
}

impl fmt::Display for Failure {
    fn fmt<W: fmt::Write>(&self, f: &mut fmt::Formatter<W>) -> fmt::Result {
        match self {
            Failure::Read(error) => write!(f, "standard input: {error}"),
            Failure::Write(error) => write!(f, "standard output: {error}"),
        }
    }
}

impl error::Error for Failure {}

fn main(rt: HostRuntime) {
    let mut block = [0u8; 65536];
    let mut line = [0u8; 1000];
    let mut out = [0u8; 65536];
    if let Err(failure) = answer_all(&rt, &mut block, &mut line, &mut out) {
        let _ = eprintln!(rt; "console: {failure}");
    }
}

// Reads block by block to the input's end, and stops before it at a write that fails, or a read that is not to be tried again. A loop
// has to end, and nothing says that the input does, so the turns are as many as no run uses up.
fn answer_all(
    rt: &HostRuntime,
    block: &mut [u8],
    line: &mut [u8],
    out: &mut [u8],
) -> Result<(), Failure>
    requires { (length line.old ≡ line_room) × (response_room ≤ length out.old) }
{
    let mut pending = Pending::Buffered(0);
    for _ in 0..u64::MAX {
        match rt.stdin().read(block) {
            Ok(0) => return answer_last(rt, line, out, pending),
            Ok(n) => pending = answer_block(rt, &block[..n], line, out, pending)?,
            Err(error) => wait_after(error)?,
        }
    }
    Ok(())
}

// A read that failed is to be tried again where a signal came between, or there is nothing to read yet; then other processes are let
// run first.
fn wait_after(error: Error) -> Result<(), Failure> {
    match error.kind() {
        ErrorKind::Interrupted | ErrorKind::WouldBlock => Ok(yield_now()),
        _ => Err(Failure::Read(error)),
    }
}

// Answers the lines that end within the block, to its last byte, and keeps what is pending then. What is answered is written out at
// the latest with the block's end, so that nobody waits for the answer to a line that was read.
fn answer_block(
    rt: &HostRuntime,
    block: &[u8],
    line: &mut [u8],
    out: &mut [u8],
    pending: Pending,
) -> Result<Pending, Failure>
    requires { (length line.old ≡ line_room) × (buffered pending ≤ line_room) × (response_room ≤ length out.old) }
    ensures inside { IfOk result (λ p. buffered p ≤ line_room) }
    ensures keeps { IfOk result (λ p. kept line.new p ≡ kept_after (kept line.old pending) block.now) }
{
    let mut state = Progress {
        at: 0,
        pending,
        filled: 0,
    };
    // How far each turn comes is for the output buffer's room to say.
    while state.at < block.len() {
        state = take_lines(block, line, out, state);
        write_out(rt, &out[..state.filled])?;
        state.filled = 0;
    }
    Ok(state.pending)
}

// Answers a last line that no newline ends. Where there is none, nothing is written, and nothing can fail.
fn answer_last(
    rt: &HostRuntime,
    line: &[u8],
    out: &mut [u8],
    pending: Pending,
) -> Result<(), Failure>
    requires { (buffered pending ≤ length line.now) × (response_room ≤ length out.old) }
    ensures { pending ≡ Buffered 0 → result ≡ Ok tt }
{
    let state = Progress {
        at: 0,
        pending,
        filled: 0,
    };
    let filled = end_input(line, out, state);
    write_out(rt, &out[..filled])
}

// Writes the answers to standard output; where there are none, nothing can fail.
fn write_out(rt: &HostRuntime, answers: &[u8]) -> Result<(), Failure>
    ensures { length answers.now ≡ 0 → result ≡ Ok tt }
{
    if answers.is_empty() {
        return Ok(());
    }
    rt.stdout().write_all(answers).map_err(Failure::Write)
}
