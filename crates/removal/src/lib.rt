// The calls that take an entry away.
#![tactic(auto)]

ghost use Rattle.std.specs.Prelude.{◌≡◌};
ghost use Rattle.model.specs.Calls.{change, remove_container, remove_policy};
ghost use Rattle.steps.specs.MemoryStep.{memory_step};
ghost use Rattle.answers.specs.Answers.{outcome_answer};

use block::Reason;
use model::{ContainerSlot, PolicySlot};
use store::Words;

// Kept: the two share their tests, a line each; one function for both would take a trait with the change of a table, the step, the call and
// the registry that it leaves, and the law of each, to be implemented twice.
pub fn remove_container(memory: &mut [u64], container: ContainerSlot) -> Result<(), Reason>
    ensures { (memory.new, outcome_answer result) ≡ memory_step memory.old (change (remove_container container.0)) }
{
    call_tests::test_memory(memory)?;
    call_tests::test_slot(memory, container)?;
    // Kept: as at `admission::admit`.
    let memory: &mut Words = memory.as_mut_array().ok_or(Reason::MemorySize)?;
    clearing::take_container(memory, container);
    Ok(())
}

// Kept: as above.
pub fn remove_policy(memory: &mut [u64], policy: PolicySlot) -> Result<(), Reason>
    ensures { (memory.new, outcome_answer result) ≡ memory_step memory.old (change (remove_policy policy.0)) }
{
    call_tests::test_memory(memory)?;
    call_tests::test_slot(memory, policy)?;
    // Kept: as at `admission::admit`.
    let memory: &mut Words = memory.as_mut_array().ok_or(Reason::MemorySize)?;
    policy_changes::take_policy(memory, policy);
    Ok(())
}
