// A batch of admissions in one pass: its blocks are placed one after another, then what they touch is set once.
#![tactic(auto)]

ghost use Rattle.std.specs.Prelude.{◌≡◌, true, ◌+◌, ◌*◌, ◌/◌, ◌%◌, ◌≤◌, ◌<◌, length, take, IfOk};
ghost use Rattle.buffer.specs.Buffer.{overwritten};
ghost use Rattle.block.specs.Cut.{blocks_of};
ghost use Rattle.model.specs.Calls.{change, admit_batch, written, tally_left};
ghost use Rattle.model.specs.Batch.{pair_of};
ghost use Rattle.formed.specs.Registry.{model_in, well_formed, EntriesFormed};
ghost use Rattle.steps.specs.MemoryStep.{memory_step};
ghost use Rattle.answers.specs.Answers.{admitted_answer, batched_answer, tally_after};
ghost use Rattle.batch_blocks.specs.Blocks.{slot_of, position_of, FreeFrom};
ghost use Rattle.batches.specs.Progress.{batch_test, Begun, TookBlock, BatchAt};

use answers::Admitted;
use batch_blocks::Came;
use block::{Reason, Refusal};
use model::Tally;
use store::Words;

// How far a batch has come: what came, and the tally.
#[derive(Clone, Copy)]
pub struct Progress {
    pub came: Came,
    pub tally: Tally,
}

fn begin(tally: Tally) -> Progress
    ensures { Begun tally result }
{
    Progress {
        came: batch_blocks::none_came(),
        tally,
    }
}

// The two numbers of a block: 0 and its slot, or why it was refused and the position at fault.
// Kept: the `as`: no `From` goes from `usize` to `u16`, and a `TryFrom` would add a refusal that cannot come, since a slot is below 256 and a
// position below 511.
fn numbers(answer: Result<Admitted, Refusal>) -> (u16, u16)
    requires { (slot_of answer < 256) × (position_of answer ≤ 510) }
    ensures { result ≡ pair_of (admitted_answer answer) }
{
    match answer {
        Ok(admitted) => match admitted {
            Admitted::Container(c) => (0, c.0 as u16),
            Admitted::Policy(q) => (0, q.0 as u16),
        },
        Err(refusal) => (u16::from(refusal.reason.number()), refusal.position as u16),
    }
}

// Block i of a batch: its entry is placed and its two numbers are put into the list.
// Kept: the list with the number of the block, and the tally beside it: a struct of them would be made and taken apart at each block, and
// the definition of how far a batch has come speaks of the whole list.
fn take_block(
    memory: &mut Words,
    block: &[u8],
    answers: &mut [u16],
    i: usize,
    progress: Progress,
) -> Progress
    requires { EntriesFormed memory.old × FreeFrom (model_in memory.old) progress.came × (2 * i + 2 ≤ length answers.old) }
    ensures { TookBlock memory.old block.now answers.old i progress memory.new answers.new result }
{
    let answer = batch_blocks::place_block(memory, block, progress.came);
    let (first, second) = numbers(answer);
    answers[2 * i] = first;
    answers[2 * i + 1] = second;
    Progress {
        came: batch_blocks::came_with(progress.came, answer),
        tally: tallies::counted(progress.tally, first == 0),
    }
}

// All whole blocks of a batch, one after another; no stored bit changes.
// Kept: as at `take_block`.
pub fn take_blocks(memory: &mut Words, blocks: &[u8], answers: &mut [u16], tally: Tally) -> Progress
    requires { (well_formed memory.old ≡ true) × (2 * (length blocks.now / 512) ≤ length answers.old) }
    ensures { BatchAt memory.old blocks.now answers.old tally (length blocks.now / 512) memory.new answers.new result }
{
    let mut progress = begin(tally);
    for (i, block) in blocks.chunks_exact(512).enumerate() {
        progress = take_block(memory, block, answers, i, progress);
    }
    progress
}

// Refusals 14 and 13.
fn test_batch(blocks: &[u8], numbers: usize) -> Result<(), Reason>
    ensures result_value { result ≡ batch_test blocks.now numbers }
    ensures whole { IfOk result (λ t. length blocks.now % 512 ≡ 0) }
    ensures room { IfOk result (λ t. 2 * (length blocks.now / 512) ≤ numbers) }
{
    let length = blocks.len();
    if 65536 < length || length % 512 != 0 {
        return Err(Reason::BatchLength);
    }
    if numbers < 2 * (length / 512) {
        return Err(Reason::BufferLength);
    }
    Ok(())
}

// The blocks are admitted one after another. Two numbers for each are put into the list: 0 and the slot, or the refusal and the position at
// fault; the rest of the list is kept. The tally is brought up to date.
pub fn admit_batch(
    memory: &mut [u64],
    blocks: &[u8],
    answers: &mut [u16],
    tally: Tally,
) -> Result<Tally, Refusal>
    ensures result_after { (memory.new, batched_answer result (take (2 * length (blocks_of blocks.now)) answers.new)) ≡ memory_step memory.old (change (admit_batch blocks.now (length answers.old) tally)) }
    ensures answers_after { answers.new ≡ overwritten answers.old (written (memory_step memory.old (change (admit_batch blocks.now (length answers.old) tally))).1) }
    ensures tally_value { tally_after tally result ≡ tally_left tally (memory_step memory.old (change (admit_batch blocks.now (length answers.old) tally))).1 }
{
    call_tests::test_memory(memory)?;
    // Kept: as at `admission::admit`.
    let memory: &mut Words = memory.as_mut_array().ok_or(Reason::MemorySize)?;
    test_batch(blocks, answers.len())?;
    let done = take_blocks(memory, blocks, answers, tally);
    arrivals::settle_came(memory, done.came.containers.slots, done.came.policies.slots);
    Ok(done.tally)
}
