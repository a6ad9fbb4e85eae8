// The report, apart from reading and writing: a state that is lent pieces of input and a buffer, and puts text. The text of all
// steps, joined, is the whole sheet, however the input was cut and whatever the buffers hold (sheets/specs/Runs.antt).
#![tactic(auto)]

ghost use Rattle.std.specs.Prelude.{◌≡◌, false, ◌≤◌, ◌<◌, length};
ghost use Rattle.sheets.specs.declared.State.TheVariants.{Taking};
ghost use Rattle.sheets.specs.Left.{Does};
ghost use Rattle.sheets.specs.Pieces.{take_one, take_step};
ghost use Rattle.sheets.specs.Step.{start_state, finished_in, report_step, started_in, ahead, Fed, Ready};

pub use sheets::{State, Stepped};
use store::Words;

// No block was taken.
pub fn start_state() -> State
    ensures { result ≡ start_state }
{
    State::Taking(0, 0)
}

// Whether the whole sheet was put.
pub fn finished(state: State) -> bool
    ensures { result ≡ finished_in state }
{
    matches!(&state, State::Finished)
}

// One block at most of a piece of input, after n blocks and f bytes of the next.
// Kept: a struct of the two numbers would be no plainer: the state has them as the fields of one of its cases, and would be taken apart
// and put together at each step.
#[tactic(auto, unfolding(sheets::specs::Pieces::take_one, sheets::specs::Pieces::take_with))]
fn take_one(
    memory: &mut Words,
    block: &mut [u8; 512],
    piece: &[u8],
    ended: bool,
    out: &mut [u8],
    n: u64,
    f: usize,
) -> Stepped
    requires buffers { (f < 512) × (128 ≤ length out.old) }
    requires ready { Ready (Taking n f) memory.old }
    ensures does { Does (take_one memory.old block.old piece.now ended n f) memory.new block.new out.old out.new result }
    ensures used_in_bounds { result.used ≤ length piece.now }
{
    if n == u64::MAX {
        return Stepped {
            state: State::Counting,
            used: 0,
            put: 0,
        };
    }
    let used = piece.len().min(512 - f);
    let bytes = f + used;
    block[f..bytes].copy_from_slice(&piece[..used]);
    if cuts::waits(bytes, ended) {
        return Stepped {
            state: State::Taking(n, bytes),
            used,
            put: 0,
        };
    }
    if bytes == 0 {
        return cuts::end_after(out, n).using(used);
    }
    intake::feed_block(memory, &block[..bytes], out, n).using(used)
}

// A piece of input after n blocks and f bytes of the next: whole blocks at once, as far as their lines find room, or one at most.
#[tactic(auto, unfolding(sheets::specs::Pieces::take_step))]
fn take(
    memory: &mut Words,
    block: &mut [u8; 512],
    piece: &[u8],
    ended: bool,
    out: &mut [u8],
    n: u64,
    f: usize,
) -> Stepped
    requires buffers { (f < 512) × (128 ≤ length out.old) }
    requires ready { Ready (Taking n f) memory.old }
    ensures does { Does (take_step memory.old block.old piece.now ended (length out.old) n f) memory.new block.new out.old out.new result }
    ensures used_in_bounds { result.used ≤ length piece.now }
{
    let blocks = cuts::whole_blocks(out.len(), piece.len(), n, f);
    if blocks == 0 {
        return take_one(memory, block, piece, ended, out, n, f);
    }
    let used = 512 * blocks;
    let put = intake::feed_blocks(memory, &piece[..used], out, n);
    Stepped {
        // Kept: a `usize` has 64 bits, and has no `u64::from`.
        state: State::Taking(n + blocks as u64, 0),
        used,
        put,
    }
}

// Takes a piece of the input, or a part of it, or puts some text. `ended` says that the input ends with this piece; what was not used
// of it is to be lent again. Of whole blocks a step takes all, at most 128, whose lines find room, and has put the line of each that was
// refused.
#[tactic(auto, unfolding(sheets::specs::Step::report_step))]
pub fn step(
    memory: &mut Words,
    block: &mut [u8; 512],
    piece: &[u8],
    ended: bool,
    out: &mut [u8],
    state: State,
) -> Stepped
    requires buffers { (started_in state < 512) × (128 ≤ length out.old) }
    requires ready { Ready state memory.old }
    ensures does { Does (report_step memory.old block.old piece.now ended (length out.old) state) memory.new block.new out.old out.new result }
    ensures used_in_bounds { (result.used ≤ length piece.now) × (result.put ≤ length out.new) × (started_in result.state < 512) }
    ensures ready { Ready result.state memory.new }
    ensures state_bound { finished_in state ≡ false → Fed piece.now ended → ahead result.state < ahead state }
{
    match state {
        State::Taking(n, f) => take(memory, block, piece, ended, out, n, f),
        State::Counting => closing::tell_counts(memory, out).using(0),
        State::Listing(cursor) => closing::tell_findings(memory, out, cursor).using(0),
        State::Finished => Stepped {
            state: State::Finished,
            used: 0,
            put: 0,
        },
    }
}
