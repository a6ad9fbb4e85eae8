// The open of a registry.
#![tactic(auto)]

ghost use Rattle.std.specs.Prelude.{◌≡◌};
ghost use Rattle.model.specs.Calls.{open_with};
ghost use Rattle.steps.specs.MemoryStep.{memory_step};
ghost use Rattle.answers.specs.Answers.{open_answer};

use block::{Reason, Refusal};
use store::Words;

// A registry without entries, under the settings of the block. What the memory held before counts for nothing.
pub fn open(memory: &mut [u64], block: &[u8]) -> Result<(), Refusal>
    ensures { (memory.new, open_answer result) ≡ memory_step memory.old (open_with block.now) }
{
    let memory: &mut Words = memory.as_mut_array().ok_or(Reason::MemorySize)?;
    let settings = reader::read_settings(block)?;
    clearing::start(memory, settings);
    Ok(())
}
