// The tests of the refusals that many calls meet: of the memory, of a slot that a call names, of the block of an admission.
#![tactic(auto)]

ghost use Rattle.std.specs.Prelude.{◌≡◌, true, ◌<◌, Err, IfOk, IfErr};
ghost use Rattle.std.proofs.Math.Option.{some};
ghost use Rattle.block.specs.Reader.{read_entry, AcceptedAs};
ghost use Rattle.block.specs.Reading.{read_sort};
ghost use Rattle.model.specs.Table.{at};
ghost use Rattle.formed.specs.Registry.{model_in, well_formed, EntriesFormed};
ghost use Rattle.entries.specs.Entries.{free_in, SlotsWithin};
ghost use Rattle.call_tests.specs.Tests.{memory_test, slot_test, said_as};

use block::{Reason, Refusal, Settings, Sort};
use entries::Slot;
use store::Words;

// Refusals 1 and 2, which every call meets but open.
pub fn test_memory(memory: &[u64]) -> Result<(), Reason>
    ensures result_value { result ≡ memory_test memory.now }
    ensures formed { IfOk result (λ t. well_formed memory.now ≡ true) }
    ensures entries { IfOk result (λ t. EntriesFormed memory.now) }
{
    if memory.len() != store::WORDS {
        return Err(Reason::MemorySize);
    }
    if !memory_tests::well_formed(memory) {
        return Err(Reason::NotWellFormed);
    }
    Ok(())
}

// The words of a memory that meets neither: how a call that asks begins.
pub fn formed_memory(memory: &[u64]) -> Result<&Words, Reason>
    ensures refused { IfErr result (λ r. memory_test memory.now ≡ Err r) }
    ensures same { IfOk result (λ w. memory.now ≡ w.now) }
    ensures formed { IfOk result (λ w. well_formed w.now ≡ true) }
    ensures entries { IfOk result (λ w. EntriesFormed w.now) }
{
    test_memory(memory)?;
    memory.as_array().ok_or(Reason::MemorySize)
}

// Refusals 10 and 11 of a slot of a table, whose slots are of so many words each. A slot is free if its first word is 0.
// Kept: the numbers of a table and no `Slot`: callers are promised that any table may be asked of, and a `Slot` would ask for its laws.
pub fn test_slot_at(
    memory: &[u64],
    start: usize,
    words: usize,
    slots: usize,
    slot: usize,
) -> Result<(), Reason>
    requires { SlotsWithin memory.now start words slots }
    ensures { result ≡ slot_test slots (free_in memory.now start words) slot }
{
    if slots <= slot {
        return Err(Reason::BeyondTable);
    }
    if memory[start + words * slot] == 0 {
        return Err(Reason::FreeSlot);
    }
    Ok(())
}

// The same of a slot of its own table.
pub fn test_slot<S: Slot>(memory: &[u64], slot: S) -> Result<(), Reason>
    requires { SlotsWithin memory.now S.START S.WORDS S.SLOTS }
    ensures result_value { result ≡ slot_test S.SLOTS (free_in memory.now S.START S.WORDS) (S.index slot) }
    ensures in_table { IfOk result (λ t. S.index slot < S.SLOTS) }
    ensures stands { IfOk result (λ t. at (S.table memory.now) (S.index slot) ≡ some (S.entry memory.now (S.index slot))) }
{
    test_slot_at(memory, S::START, S::WORDS, S::SLOTS, slot.index())
}

// Refusals 3 to 9 of the block of an admission, under the settings of the memory.
pub fn test_block(memory: &Words, block: &[u8]) -> Result<Sort, Refusal>
    ensures result_value { result ≡ read_sort (read_entry (model_in memory.now).settings block.now) }
    ensures accepted { IfOk result (λ x. AcceptedAs (model_in memory.now).settings block.now (said_as x block.now)) }
{
    let settings = Settings {
        user_key: memory[0],
        system_key: memory[1],
        system_value: memory[2],
    };
    reader::test_entry(settings, block)
}
