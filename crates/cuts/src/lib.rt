// What a step of the report works out without the register: how many blocks it takes, how many lines it puts, and what the end of the
// input gives.
#![tactic(auto)]

ghost use Rattle.std.specs.Prelude.{◌≡◌, ◌+◌, ◌*◌, ◌≤◌, length};
ghost use Rattle.sheets.specs.Told.{Tells};
ghost use Rattle.sheets.specs.Blocks.{end_of};
ghost use Rattle.sheets.specs.Pieces.{waits, blocks_at_once, whole_blocks};
ghost use Rattle.sheets.specs.Closing.{lines_in};

use block::Reason;
use sheets::{State, Told};

// Whether more is to come before the block of so many bytes is whole.
pub fn waits(bytes: usize, ended: bool) -> bool
    ensures { result ≡ waits bytes ended }
{
    (bytes < 512) & !ended
}

// How many findings a step puts at most, in a buffer of so many bytes.
#[tactic(auto, unfolding(sheets::specs::Closing::lines_in))]
pub fn lines_in(room: usize) -> usize
    ensures value { result ≡ lines_in room }
    ensures upper_bound { (result ≤ 7168) × (10 * result ≤ room) }
{
    (room / 10).min(7168)
}

// How many whole blocks of so many bytes a step takes at once after n others, in a buffer of so many bytes.
#[tactic(auto, unfolding(sheets::specs::Pieces::blocks_at_once))]
pub fn blocks_at_once(room: usize, bytes: usize, n: u64) -> usize
    ensures value { result ≡ blocks_at_once room bytes n }
    ensures upper_bound { (result ≤ 128) × (512 * result ≤ bytes) × (72 * result ≤ room) × (n + result ≤ 18446744073709551615) }
{
    // Kept: a `usize` has the 64 bits of the number, and so a test, as `try_from` makes, would never fail.
    let numbers = (u64::MAX - n) as usize;
    (bytes / 512).min(room / 72).min(numbers).min(128)
}

// The same, where f bytes of the next block have come: the first block, and one that is started, are taken alone.
#[tactic(auto, unfolding(sheets::specs::Pieces::whole_blocks))]
pub fn whole_blocks(room: usize, bytes: usize, n: u64, f: usize) -> usize
    ensures value { result ≡ whole_blocks room bytes n f }
    ensures upper_bound { (result ≤ 128) × (512 * result ≤ bytes) × (72 * result ≤ room) × (n + result ≤ 18446744073709551615) }
{
    if n == 0 {
        return 0;
    }
    if f == 0 {
        return blocks_at_once(room, bytes, n);
    }
    0
}

// The end of the input at the end of a block, after n blocks.
// Kept: a struct of the buffer and the number would be no plainer: the number is the state's, and the buffer's rest is lent anew for each
// line.
pub fn end_after(out: &mut [u8], n: u64) -> Told
    requires { 128 ≤ length out.old }
    ensures { Tells (end_of n) out.old out.new result }
{
    if 0 < n {
        return Told {
            state: State::Counting,
            put: 0,
        };
    }
    Told {
        state: State::Finished,
        put: text::put_refusal(out, 1, Reason::BlockLength.into()),
    }
}
