// The calls that ask: of a pair, of a container's value, of the counts.
#![tactic(auto)]

ghost use Rattle.std.specs.Prelude.{◌≡◌, true, Ok};
ghost use Rattle.model.specs.Calls.{ask, ask_reaches, ask_user, counts};
ghost use Rattle.formed.specs.Registry.{well_formed};
ghost use Rattle.steps.specs.MemoryStep.{memory_step};
ghost use Rattle.answers.specs.Answers.{reply_answer, counted_answer};

use answers::Counts;
use block::Reason;
use model::{ContainerSlot, PolicySlot};
use store::Words;

// Whether container a reaches container b, by the stored matrix. Both slots are tested for 10 before either for 11.
pub fn reaches(memory: &[u64], from: ContainerSlot, to: ContainerSlot) -> Result<bool, Reason>
    ensures { (memory.now, reply_answer result) ≡ memory_step memory.now (ask (ask_reaches from.0 to.0)) }
{
    let memory = call_tests::formed_memory(memory)?;
    let a = from.0;
    let b = to.0;
    if store::CONTAINER_SLOTS <= b {
        return Err(Reason::BeyondTable);
    }
    call_tests::test_slot(memory, from)?;
    call_tests::test_slot(memory, to)?;
    let word = memory[store::ROWS + store::ROW_WORDS * a + b / 64];
    Ok(bitrow::bit_of(word, b))
}

// Whether a container carries a value, any number at all, under the user key.
pub fn carries_user(memory: &[u64], slot: ContainerSlot, value: u64) -> Result<bool, Reason>
    ensures { (memory.now, reply_answer result) ≡ memory_step memory.now (ask (ask_user slot.0 value)) }
{
    let memory = call_tests::formed_memory(memory)?;
    call_tests::test_slot(memory, slot)?;
    if 65535 < value {
        return Ok(false);
    }
    let at = store::CONTAINERS + store::CONTAINER_WORDS * slot.0;
    Ok(entry_labels::carries(memory, at, memory[0] * 65536 + value))
}

// The standing containers, the standing policies, and the set bits of the matrix, of a memory that is well formed.
pub fn counts_in(memory: &Words) -> Counts
    requires { well_formed memory.now ≡ true }
    ensures { (memory.now, counted_answer (Ok result)) ≡ memory_step memory.now (ask counts) }
{
    Counts {
        containers: counts::count_standing::<ContainerSlot>(memory),
        policies: counts::count_standing::<PolicySlot>(memory),
        pairs: counts::pairs(memory),
    }
}

// The same of any memory.
pub fn counts(memory: &[u64]) -> Result<Counts, Reason>
    ensures { (memory.now, counted_answer result) ≡ memory_step memory.now (ask counts) }
{
    let memory = call_tests::formed_memory(memory)?;
    Ok(counts_in(memory))
}
