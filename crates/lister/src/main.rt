#![tactic(auto)]

// The pump of the report: reads pieces of standard input, steps, and writes the text that was put, until the state says that the
// sheet is whole. Between a reader and a writer whose bytes are known it is proved to hand on every byte; which bytes the system's
// streams give and take, no contract says.
//
// A page of memory that is touched for the first time costs more than reading a few blocks. So the pump begins with small buffers, and
// takes a large one only where the findings are many: each in a function of its own that is never inlined, so that its arrays lie where
// those of later calls lie.
ghost use Rattle.std.specs.Prelude.{◌≡◌, true, false, ◌≤◌, ◌<◌, ◌^◌, length, IfSome, IfOk, OnOk, OnErr};
ghost use Rattle.std.specs.Io.KnownBytes.{Appends};
ghost use Rattle.sheets.specs.Sheet.{sheet};
ghost use Rattle.sheets.specs.Step.{start_state, started_in, finished_in, ahead, Ready};
ghost use Rattle.streams.specs.Bytes.{Within, ended_in, unread, to_come, AppendsSome};
ghost use Rattle.lister.specs.Steps.{place, WentTo, WentToEnd, Stopped};

use report::State;
use std::fmt;
use std::io::{self, Read, Write};
use std::process::ExitCode;
use std::time::Clock;
use store::Words;
use streams::Input;

// The buffers that the pump begins with: 32 blocks are read at once, and there is room for the lines of all that are refused.
const PIECE: usize = 16384;

const LINES: usize = 4096;

// The buffer for text that it goes on with: of as many findings as a step puts at most.
const TEXT: usize = 71680;

// Why the sheet is not whole.
#[derive(Clone, Copy)]
enum Failure {
    Unread(io::Error),
    Unwritten(io::Error),
}

impl fmt::Display for Failure {
    fn fmt<W: fmt::Write>(&self, f: &mut fmt::Formatter<W>) -> fmt::Result {
        match self {
            Failure::Unread(e) => write!(f, "standard input cannot be read: {e}"),
            Failure::Unwritten(e) => write!(f, "standard output cannot be written: {e}"),
        }
    }
}

// How far the report has come: what is left of the input, and the state.
#[derive(Clone, Copy)]
struct Progress {
    input: Input,
    state: State,
}

// Reads, where all that came was used; takes a step; and writes what it put.
// Kept: the clock and the two buffers beside the rest: a struct of them would be made for these calls alone, of what `main` and the
// phases own apart. And the two errors by their arms: `map_err` would take a closure for each, which says no more than the arm.
#[tactic(auto, using(crate::proofs::Standing::pieces))]
fn turn<R: Read, W: Write>(
    clock: &impl Clock,
    reader: &mut R,
    writer: &mut W,
    memory: &mut Words,
    block: &mut [u8; 512],
    bytes: &mut [u8],
    out: &mut [u8],
    progress: Progress,
) -> Result<Progress, Failure>
    requires buffers { (0 < length bytes.old) × (128 ≤ length out.old) }
    requires within { Within progress.input (length bytes.old) }
    requires started { started_in progress.state < 512 }
    requires ready { Ready progress.state memory.old }
    ensures within { IfOk result (λ r. Within r.input (length bytes.new)) }
    ensures started { IfOk result (λ r. started_in r.state < 512) }
    ensures ready { IfOk result (λ r. Ready r.state memory.new) }
    ensures nearer { IfOk result (λ r. finished_in progress.state ≡ false → ahead r.state < ahead progress.state) }
    ensures went { IfOk result (λ r. WentTo (place memory.old block.old progress.state (to_come bytes.old progress.input (R.remaining reader.old)))
        (place memory.new block.new r.state (to_come bytes.new r.input (R.remaining reader.new))) (W.contents writer.old) (W.contents writer.new)) }
    ensures stopped { OnErr result (Stopped (place memory.old block.old progress.state (to_come bytes.old progress.input (R.remaining reader.old)))
        (W.contents writer.old) (W.contents writer.new)) }
{
    let next = match streams::refill(clock, reader, bytes, progress.input) {
        Ok(next) => next,
        Err(e) => return Err(Failure::Unread(e)),
    };
    let done = report::step(
        memory,
        block,
        next.piece(bytes),
        next.ended(),
        out,
        progress.state,
    );
    if let Err(e) = streams::write_whole(clock, writer, &out[..done.put]) {
        return Err(Failure::Unwritten(e));
    }
    Ok(Progress {
        input: next.used(done.used),
        state: done.state,
    })
}

// The pump from the start on: to the end of the sheet, or until the input has ended and a step of the listing left findings.
#[inline(never)]
fn begin<R: Read, W: Write>(
    clock: &impl Clock,
    reader: &mut R,
    writer: &mut W,
    memory: &mut Words,
    block: &mut [u8; 512],
) -> Result<Progress, Failure>
    ensures ended { IfOk result (λ r. finished_in r.state ≡ false → ended_in r.input ≡ true) }
    ensures started { IfOk result (λ r. started_in r.state < 512) }
    ensures ready { IfOk result (λ r. Ready r.state memory.new) }
    ensures whole { IfOk result (λ r. finished_in r.state ≡ true → WentToEnd (place memory.old block.old start_state (R.remaining reader.old))
        (W.contents writer.old) (W.contents writer.new)) }
    ensures went { IfOk result (λ r. finished_in r.state ≡ false → WentTo (place memory.old block.old start_state (R.remaining reader.old))
        (place memory.new block.new r.state (unread r.input (R.remaining reader.new))) (W.contents writer.old) (W.contents writer.new)) }
    ensures stopped { OnErr result (Stopped (place memory.old block.old start_state (R.remaining reader.old)) (W.contents writer.old) (W.contents writer.new)) }
{
    let mut bytes = [0u8; PIECE];
    let mut lines = [0u8; LINES];
    let mut progress = Progress {
        input: streams::nothing_read(),
        state: report::start_state(),
    };
    // Kept: the state says when the sheet is whole, and no iterator can lend the memory and the buffers to each step.
    while !report::finished(progress.state) {
        let listed = matches!(&progress.state, State::Listing(_));
        progress = turn(
            clock, reader, writer, memory, block, &mut bytes, &mut lines, progress,
        )?;
        if listed && progress.input.ended() {
            return Ok(progress);
        }
    }
    Ok(progress)
}

// The pump to the end of the sheet, where the input has ended; nothing is read.
#[inline(never)]
fn finish<R: Read, W: Write>(
    clock: &impl Clock,
    reader: &mut R,
    writer: &mut W,
    memory: &mut Words,
    block: &mut [u8; 512],
    begun: Progress,
) -> Result<(), Failure>
    requires ended { ended_in begun.input ≡ true }
    requires started { started_in begun.state < 512 }
    requires ready { Ready begun.state memory.old }
    ensures ended { OnOk result (WentToEnd (place memory.old block.old begun.state (unread begun.input (R.remaining reader.old)))
        (W.contents writer.old) (W.contents writer.new)) }
    ensures stopped { OnErr result (Stopped (place memory.old block.old begun.state (unread begun.input (R.remaining reader.old)))
        (W.contents writer.old) (W.contents writer.new)) }
{
    let mut none = [0u8; 1];
    let mut text = [0u8; TEXT];
    let mut progress = begun;
    // Kept: as in `begin`.
    while !report::finished(progress.state) {
        progress = turn(
            clock, reader, writer, memory, block, &mut none, &mut text, progress,
        )?;
    }
    Ok(())
}

// Writes the whole sheet, or its first bytes and says why no more.
fn pump<R: Read, W: Write>(
    clock: &impl Clock,
    reader: &mut R,
    writer: &mut W,
    memory: &mut Words,
    block: &mut [u8; 512],
) -> Result<(), Failure>
    ensures whole { OnOk result (IfSome (R.remaining reader.old) (λ input. length input < 2 ^ 64
        → Appends (W.contents writer.old) (W.contents writer.new) (sheet input))) }
    ensures part { OnErr result (IfSome (R.remaining reader.old) (λ input. length input < 2 ^ 64
        → AppendsSome (W.contents writer.old) (W.contents writer.new) (sheet input) (length (sheet input)))) }
{
    let begun = begin(clock, reader, writer, memory, block)?;
    if report::finished(begun.state) {
        return Ok(());
    }
    finish(clock, reader, writer, memory, block, begun)
}

fn main(rt: HostRuntime) -> ExitCode {
    let mut memory = [0u64; store::WORDS];
    let mut block = [0u8; 512];
    let mut input = rt.stdin();
    let mut output = rt.stdout();
    match pump(&rt, &mut input, &mut output, &mut memory, &mut block) {
        Ok(()) => ExitCode::SUCCESS,
        Err(failure) => {
            let _ = eprintln!(rt; "lister: {failure}");
            ExitCode::FAILURE
        }
    }
}
