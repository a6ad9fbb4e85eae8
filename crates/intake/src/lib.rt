// How the report takes a block: the first opens, the others are admitted, and a refusal is put at once. The entries of those admitted
// come to stand; the stored bits, which no refusal asks of, are set when the input has ended.
#![tactic(auto)]

ghost use Rattle.std.specs.Prelude.{◌≡◌, true, ℕ, ◌+◌, ◌*◌, ◌/◌, ◌%◌, ◌≤◌, ◌<◌, length};
ghost use Rattle.buffer.specs.Buffer.{Puts};
ghost use Rattle.block.specs.Cut.{blocks_of};
ghost use Rattle.steps.specs.MemoryStep.{memory_step};
ghost use Rattle.model.specs.Calls.{open_with, pairs_of};
ghost use Rattle.formed.specs.Registry.{well_formed};
ghost use Rattle.batch_blocks.specs.Blocks.{block_placed};
ghost use Rattle.text.specs.Lines.{pair_lines};
ghost use Rattle.sheets.specs.Blocks.{Takes, opens, admits, taken, admits_all};

use model::Tally;
use sheets::{State, Told};
use store::Words;

// Opens by a block, and puts the refusal, where it is one.
// Kept: a struct of the block and the buffer would be no plainer: one is read and the other written, and each caller would make it for
// one call.
fn open_by(memory: &mut Words, block: &[u8], out: &mut [u8]) -> Told
    requires { 128 ≤ length out.old }
    ensures { Takes (opens (memory_step memory.old (open_with block.now))) memory.new out.old out.new result }
{
    match opening::open(memory, block) {
        Ok(()) => Told {
            state: State::Taking(1, 0),
            put: 0,
        },
        Err(refusal) => Told {
            state: State::Finished,
            put: text::put_refusal(out, 1, refusal),
        },
    }
}

// Admits a block after n others, and puts the refusal, where it is one.
// Kept: as above; and the number is counted in the state, which the block knows nothing of.
fn admit_as(memory: &mut Words, block: &[u8], out: &mut [u8], n: u64) -> Told
    requires { (n < 18446744073709551615) × (128 ≤ length out.old) × (well_formed memory.old ≡ true) }
    ensures { Takes (admits n (block_placed memory.old block.now)) memory.new out.old out.new result }
{
    let put = match batch_blocks::place_block(memory, block, batch_blocks::none_came()) {
        Ok(_) => 0,
        Err(refusal) => text::put_refusal(out, n + 1, refusal),
    };
    Told {
        state: State::Taking(n + 1, 0),
        put,
    }
}

// Takes a block after n others: the first opens, the others are admitted.
// Kept: out of line, as `feed_blocks`.
#[inline(never)]
#[tactic(auto, unfolding(sheets::specs::Blocks::taken))]
pub fn feed_block(memory: &mut Words, block: &[u8], out: &mut [u8], n: u64) -> Told
    requires { (n < 18446744073709551615) × (128 ≤ length out.old) × ((n ≡ 0 → ⊥) → well_formed memory.old ≡ true) }
    ensures { Takes (taken memory.old block.now n) memory.new out.old out.new result }
{
    if n == 0 {
        return open_by(memory, block, out);
    }
    admit_as(memory, block, out, n)
}

// ---- several blocks

// Places whole blocks as those of a batch are, and leaves the two numbers of each in the list.
fn answer_blocks(memory: &mut Words, blocks: &[u8], answers: &mut [u16])
    requires { (well_formed memory.old ≡ true) × (length blocks.now % 512 ≡ 0) × (length answers.old ≡ 2 * (length blocks.now / 512)) }
    ensures { (n : ℕ) → (memory.new, pair_lines n (pairs_of answers.new)) ≡ admits_all memory.old n (blocks_of blocks.now) }
{
    let tally = Tally {
        taken: 0,
        refused: 0,
    };
    batches::take_blocks(memory, blocks, answers, tally);
}

// Takes whole blocks after n others, of which the first has opened, and puts the lines of those refused.
// Kept: out of line: what it, `feed_block` and `closing`'s two functions keep on the stack lies at one place then, since none of them calls
// another.
#[inline(never)]
pub fn feed_blocks(memory: &mut Words, blocks: &[u8], out: &mut [u8], n: u64) -> usize
    requires formed { well_formed memory.old ≡ true }
    requires blocks { (length blocks.now ≤ 65536) × (length blocks.now % 512 ≡ 0) × (72 * (length blocks.now / 512) ≤ length out.old) × (n + length blocks.now / 512 ≤ 18446744073709551615) }
    ensures memory_after { memory.new ≡ (admits_all memory.old n (blocks_of blocks.now)).0 }
    ensures puts { Puts out.old 0 (admits_all memory.old n (blocks_of blocks.now)).1 out.new result }
{
    let mut numbers = [0; 256];
    let answers = &mut numbers[..2 * (blocks.len() / 512)];
    answer_blocks(memory, blocks, answers);
    text::put_refusals(out, answers, n)
}
