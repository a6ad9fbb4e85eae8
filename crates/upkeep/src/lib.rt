// The calls over every stored bit: all set by the rules, and whether they are.
#![tactic(auto)]

ghost use Rattle.std.specs.Prelude.{◌≡◌};
ghost use Rattle.model.specs.Calls.{change, rebuild, ask, audit};
ghost use Rattle.steps.specs.MemoryStep.{memory_step};
ghost use Rattle.answers.specs.Answers.{outcome_answer, reply_answer};

use block::Reason;
use store::Words;

// Whether every stored bit is by the rules.
pub fn audit(memory: &[u64]) -> Result<bool, Reason>
    ensures { (memory.now, reply_answer result) ≡ memory_step memory.now (ask audit) }
{
    let memory = call_tests::formed_memory(memory)?;
    Ok(audit::is_consistent(memory))
}

// Every stored bit set by the rules.
// Kept: the C interface's name for the call; `whole::rebuild` is its work, once the memory is tested.
pub fn rebuild(memory: &mut [u64]) -> Result<(), Reason>
    ensures { (memory.new, outcome_answer result) ≡ memory_step memory.old (change rebuild) }
{
    call_tests::test_memory(memory)?;
    // Kept: as at `admission::admit`.
    let memory: &mut Words = memory.as_mut_array().ok_or(Reason::MemorySize)?;
    whole::rebuild(memory);
    Ok(())
}
