// The admission of a container or a policy.
#![tactic(auto)]

ghost use Rattle.std.specs.Prelude.{◌≡◌};
ghost use Rattle.model.specs.Calls.{change, admit};
ghost use Rattle.steps.specs.MemoryStep.{memory_step};
ghost use Rattle.answers.specs.Answers.{admitted_answer};

use answers::Admitted;
use block::{Reason, Refusal};
use store::Words;

// The container or policy of the block comes to the lowest free slot of its table.
pub fn admit(memory: &mut [u64], block: &[u8]) -> Result<Admitted, Refusal>
    ensures { (memory.new, admitted_answer result) ≡ memory_step memory.old (change (admit block.now)) }
{
    // Kept: two lines in each call that changes; a function for both, as `call_tests::formed_memory` is for the calls that ask, would return
    // a `&mut` out of a slice, which no contract can say yet.
    call_tests::test_memory(memory)?;
    let memory: &mut Words = memory.as_mut_array().ok_or(Reason::MemorySize)?;
    let sort = call_tests::test_block(memory, block)?;
    free_slots::admit_entry(memory, block, sort)
}
