// The calls of `registry_c` with the names that C links. Each calls the one of its name and says what that says.
// Kept: the C interface: numbers for slots and kinds, and the names of `registry_c`, since a crate is a library, for crates above it, or a
// static library, for C.
#![tactic(auto)]

ghost use Rattle.std.specs.Prelude.{◌≡◌, length};
ghost use Rattle.buffer.specs.Buffer.{overwritten};
ghost use Rattle.model.specs.Calls.{open_with, change, admit, admit_batch, remove_container, remove_policy, rebuild, ask, ask_reaches, ask_user, next_finding, list_findings, counts, audit, write, written, tally_left};
ghost use Rattle.store.specs.Layout.{memory_words};
ghost use Rattle.steps.specs.MemoryStep.{memory_step};
ghost use Rattle.codes.specs.Codes.{coded_step};

use model::Tally;

#[unsafe(no_mangle)]
pub extern "C" fn bihokura_words() -> u64
    ensures { result ≡ memory_words }
{
    registry_c::bihokura_words()
}

#[unsafe(no_mangle)]
pub extern "C" fn bihokura_open(memory: &mut [u64], block: &[u8]) -> u64
    ensures { (memory.new, result) ≡ coded_step memory.old (open_with block.now) }
{
    registry_c::bihokura_open(memory, block)
}

#[unsafe(no_mangle)]
pub extern "C" fn bihokura_admit(memory: &mut [u64], block: &[u8]) -> u64
    ensures { (memory.new, result) ≡ coded_step memory.old (change (admit block.now)) }
{
    registry_c::bihokura_admit(memory, block)
}

#[unsafe(no_mangle)]
pub extern "C" fn bihokura_admit_batch(
    memory: &mut [u64],
    blocks: &[u8],
    answers: &mut [u16],
    tally: &mut Tally,
) -> u64
    ensures result_after { (memory.new, result) ≡ coded_step memory.old (change (admit_batch blocks.now (length answers.old) tally.old)) }
    ensures answers_after { answers.new ≡ overwritten answers.old (written (memory_step memory.old (change (admit_batch blocks.now (length answers.old) tally.old))).1) }
    ensures tally_after { tally.new ≡ tally_left tally.old (memory_step memory.old (change (admit_batch blocks.now (length answers.old) tally.old))).1 }
{
    registry_c::bihokura_admit_batch(memory, blocks, answers, tally)
}

#[unsafe(no_mangle)]
pub extern "C" fn bihokura_remove_container(memory: &mut [u64], slot: u64) -> u64
    ensures { (memory.new, result) ≡ coded_step memory.old (change (remove_container slot)) }
{
    registry_c::bihokura_remove_container(memory, slot)
}

#[unsafe(no_mangle)]
pub extern "C" fn bihokura_remove_policy(memory: &mut [u64], slot: u64) -> u64
    ensures { (memory.new, result) ≡ coded_step memory.old (change (remove_policy slot)) }
{
    registry_c::bihokura_remove_policy(memory, slot)
}

#[unsafe(no_mangle)]
pub extern "C" fn bihokura_reaches(memory: &[u64], a: u64, b: u64) -> u64
    ensures { (memory.now, result) ≡ coded_step memory.now (ask (ask_reaches a b)) }
{
    registry_c::bihokura_reaches(memory, a, b)
}

#[unsafe(no_mangle)]
pub extern "C" fn bihokura_carries_user(memory: &[u64], slot: u64, value: u64) -> u64
    ensures { (memory.now, result) ≡ coded_step memory.now (ask (ask_user slot value)) }
{
    registry_c::bihokura_carries_user(memory, slot, value)
}

#[unsafe(no_mangle)]
pub extern "C" fn bihokura_next_finding(memory: &[u64], kind: u16, a: u16, b: u16) -> u64
    ensures { (memory.now, result) ≡ coded_step memory.now (ask (next_finding (record { kind = kind; a = a; b = b }))) }
{
    registry_c::bihokura_next_finding(memory, kind, a, b)
}

#[unsafe(no_mangle)]
pub extern "C" fn bihokura_findings(
    memory: &[u64],
    kind: u16,
    a: u16,
    b: u16,
    list: &mut [u64],
) -> u64
    ensures result_value { (memory.now, result) ≡ coded_step memory.now (ask (list_findings (record { kind = kind; a = a; b = b }) (length list.old))) }
    ensures list_after { list.new ≡ overwritten list.old (written (memory_step memory.now (ask (list_findings (record { kind = kind; a = a; b = b }) (length list.old)))).1) }
{
    registry_c::bihokura_findings(memory, kind, a, b, list)
}

#[unsafe(no_mangle)]
pub extern "C" fn bihokura_counts(memory: &[u64]) -> u64
    ensures { (memory.now, result) ≡ coded_step memory.now (ask counts) }
{
    registry_c::bihokura_counts(memory)
}

#[unsafe(no_mangle)]
pub extern "C" fn bihokura_rebuild(memory: &mut [u64]) -> u64
    ensures { (memory.new, result) ≡ coded_step memory.old (change rebuild) }
{
    registry_c::bihokura_rebuild(memory)
}

#[unsafe(no_mangle)]
pub extern "C" fn bihokura_audit(memory: &[u64]) -> u64
    ensures { (memory.now, result) ≡ coded_step memory.now (ask audit) }
{
    registry_c::bihokura_audit(memory)
}

#[unsafe(no_mangle)]
pub extern "C" fn bihokura_write(memory: &[u64], bytes: &mut [u8]) -> u64
    ensures result_value { (memory.now, result) ≡ coded_step memory.now (ask (write (length bytes.old))) }
    ensures bytes_after { bytes.new ≡ overwritten bytes.old (written (memory_step memory.now (ask (write (length bytes.old)))).1) }
{
    registry_c::bihokura_write(memory, bytes)
}
