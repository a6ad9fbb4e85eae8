#![tactic(auto)]

// The input and the output of `lister`, read and written on where a call failed only for now.
ghost use Rattle.std.specs.Prelude.{◌≡◌, ◌⊎◌, ◌↔◌, IsTrue, true, false, ◌≤◌, ◌<◌, ◌+◌, length, Ok, IsOk, IfOk, OnOk, OnErr};
ghost use Rattle.std.specs.IoError.{error_kind};
ghost use Rattle.std.specs.Io.{ReadsAtMost, WritesAtMost};
ghost use Rattle.std.specs.Io.KnownBytes.{Keeps, Appends, ReadConsumes, WriteAppends};
ghost use Rattle.streams.specs.declared.Input.TheVariants.{Unused};
ghost use Rattle.streams.specs.Calls.{Settles};
ghost use Rattle.streams.specs.Bytes.{Within, ended_in, piece_of, left_in, after, held, to_come, TellsEnd, AppendsSome};

use std::io::{self, Error, ErrorKind, Read, Write};
use std::thread;
use std::time::{Clock, Duration};

#[cfg(test)]
mod tests;

// How often a call that failed for now is made again, with a pause before each.
const TRIES: u32 = 1000;

// Waits for ten milliseconds.
fn pause(clock: &impl Clock) {
    thread::sleep(clock, Duration::from_millis(10));
}

// Whether a call failed for now: a signal came, or a descriptor that does not wait has nothing yet, or no room.
fn failed_for_now(error: &Error) -> bool
    ensures { IsTrue result ↔ ((error_kind error.now ≡ ErrorKind.Interrupted) ⊎ (error_kind error.now ≡ ErrorKind.WouldBlock)) }
{
    let kind = error.kind();
    kind == ErrorKind::Interrupted || kind == ErrorKind::WouldBlock
}

// Makes a call, and makes it again while it fails for now, TRIES times at most.
fn again<F: FnMut() -> io::Result<usize>>(clock: &impl Clock, call: &mut F) -> io::Result<usize>
    requires { F.IsAlwaysCallable call.old }
    ensures { Settles F.step call.old result call.new }
{
    for _ in 0..TRIES {
        match call() {
            Err(e) if failed_for_now(&e) => pause(clock),
            done => return done,
        }
    }
    call()
}

// Reads some bytes of the input: how many, 0 at the end.
fn read<R: Read>(clock: &impl Clock, reader: &mut R, bytes: &mut [u8]) -> io::Result<usize>
    ensures bound { ReadsAtMost result bytes.new }
    ensures bytes { ReadConsumes (R.remaining reader.old) (R.remaining reader.new) result bytes.new }
{
    again(clock, &mut || reader.read(bytes))
}

// What is left of the input: of the bytes read last those from one place to before another, and then what the reader has; or nothing,
// since it has ended.
#[derive(Clone, Copy)]
pub enum Input {
    Unused(usize, usize),
    Ended,
}

impl Input {
    pub fn ended(self) -> bool
        ensures { result ≡ ended_in self }
    {
        matches!(&self, Input::Ended)
    }

    // What is left of the bytes read last.
    pub fn piece(self, bytes: &[u8]) -> &[u8]
        requires { Within self (length bytes.now) }
        ensures { result.now ≡ piece_of bytes.now self }
    {
        match self {
            Input::Unused(at, end) => &bytes[at..end],
            Input::Ended => &bytes[..0],
        }
    }

    // What is left where n more bytes were used.
    pub fn used(self, n: usize) -> Input
        requires { n ≤ left_in self }
        ensures { result ≡ after self n }
    {
        match self {
            Input::Unused(at, end) => Input::Unused(at + n, end),
            Input::Ended => Input::Ended,
        }
    }
}

// The input before the first read.
pub fn nothing_read() -> Input
    ensures { result ≡ Unused 0 0 }
{
    Input::Unused(0, 0)
}

// Reads, where all that came was used.
pub fn refill<R: Read>(
    clock: &impl Clock,
    reader: &mut R,
    bytes: &mut [u8],
    input: Input,
) -> io::Result<Input>
    requires { Within input (length bytes.old) }
    ensures within { IfOk result (λ r. Within r (length bytes.new)) }
    ensures fed { IfOk result (λ r. ended_in r ≡ false → 0 < left_in r) }
    ensures kept { (0 < left_in input → result ≡ Ok input) × (ended_in input ≡ true → result ≡ Ok input) }
    ensures bytes { IfOk result (λ r. 0 < length bytes.old → Keeps (to_come bytes.old input (R.remaining reader.old)) (to_come bytes.new r (R.remaining reader.new))) }
    ensures empty { IfOk result (λ r. length bytes.old ≡ 0 → Keeps (R.remaining reader.old) (R.remaining reader.new)) }
    ensures held { IfOk result (λ r. Keeps (held bytes.old input (R.remaining reader.old)) (held bytes.new r (R.remaining reader.new))) }
    ensures end { IfOk result (λ r. 0 < length bytes.old → TellsEnd input (R.remaining reader.old) → TellsEnd r (R.remaining reader.new)) }
    ensures err { OnErr result (Keeps (R.remaining reader.old) (R.remaining reader.new)) }
{
    match input {
        Input::Unused(at, end) if at >= end => match read(clock, reader, bytes)? {
            0 => Ok(Input::Ended),
            end => Ok(Input::Unused(0, end)),
        },
        _ => Ok(input),
    }
}

// Writes some of the bytes to the output: how many.
fn write_some<W: Write>(clock: &impl Clock, writer: &mut W, bytes: &[u8]) -> io::Result<usize>
    ensures bound { WritesAtMost result bytes.now }
    ensures bytes { WriteAppends (W.contents writer.old) (W.contents writer.new) result bytes.now }
{
    again(clock, &mut || writer.write(bytes))
}

// Writes the whole text to the output, a short write written on. Where that fails, some of it was written.
pub fn write_whole<W: Write>(clock: &impl Clock, writer: &mut W, text: &[u8]) -> io::Result<()>
    ensures none { length text.now ≡ 0 → IsOk result }
    ensures all { OnOk result (Appends (W.contents writer.old) (W.contents writer.new) text.now) }
    ensures part { OnErr result (AppendsSome (W.contents writer.old) (W.contents writer.new) text.now (length text.now)) }
{
    let mut rest = text;
    // Kept: what a call writes shows only when it was made, and so no iterator goes over the pieces.
    while !rest.is_empty() {
        let put = write_some(clock, writer, rest)?;
        if put == 0 {
            return Err(Error::from(ErrorKind::WriteZero));
        }
        rest = &rest[put..];
    }
    Ok(())
}
