// The calls as C, Rust and others make them, which `bihokura_c` exports: numbers and slices only. An answer is one number: the
// refusal's number in the top byte, 0 where the call was accepted, and below it the slot, 0 or 1, the finding, how many findings
// were put into a list, the counts, or how many bytes were written. A refused open, admit or batch has the position at fault in the low
// 16 bits.
// Kept: the C interface: numbers for slots, kinds and values, and the names that `bihokura_c` exports.
#![tactic(auto, unfolding(codes::specs::Codes::coded_step))]

ghost use Rattle.std.specs.Prelude.{◌≡◌, ◌≤◌, length};
ghost use Rattle.buffer.specs.Buffer.{overwritten};
ghost use Rattle.model.specs.Calls.{open_with, change, admit, admit_batch, remove_container, remove_policy, rebuild, ask, ask_reaches, ask_user, next_finding, list_findings, counts, audit, write, written, tally_left};
ghost use Rattle.store.specs.Layout.{memory_words};
ghost use Rattle.steps.specs.MemoryStep.{memory_step};
ghost use Rattle.answers.specs.Answers.{outcome_answer, reply_answer};
ghost use Rattle.codes.specs.Codes.{code_of, coded_step, counts_code};

use block::Reason;
use entries::Slot;
use findings::Cursor;
use registry::{Admitted, Counts, Tally};

// Kept: the C interface has 64-bit numbers for slots and counts, and no `From` goes between those and `usize`.
fn slot<S: Slot>(number: u64) -> S
    ensures { result ≡ S.at number }
{
    S::at(number as usize)
}

// Kept: as above.
fn wide(count: usize) -> u64
    ensures { result ≡ count }
{
    count as u64
}

// Of a removal or a rebuild.
fn outcome_code(answer: Result<(), Reason>) -> u64
    ensures { result ≡ code_of (outcome_answer answer) }
{
    match answer {
        Ok(()) => 0,
        Err(reason) => codes::refused(reason),
    }
}

// Of a call that says yes or no.
fn reply_code(answer: Result<bool, Reason>) -> u64
    ensures { result ≡ code_of (reply_answer answer) }
{
    match answer {
        Ok(says) => u64::from(says),
        Err(reason) => codes::refused(reason),
    }
}

pub fn bihokura_words() -> u64
    ensures { result ≡ memory_words }
{
    wide(registry::words())
}

pub fn bihokura_open(memory: &mut [u64], block: &[u8]) -> u64
    ensures { (memory.new, result) ≡ coded_step memory.old (open_with block.now) }
{
    match registry::open(memory, block) {
        Ok(()) => 0,
        Err(refusal) => codes::refused_at(refusal),
    }
}

pub fn bihokura_admit(memory: &mut [u64], block: &[u8]) -> u64
    ensures { (memory.new, result) ≡ coded_step memory.old (change (admit block.now)) }
{
    match registry::admit(memory, block) {
        Ok(admitted) => match admitted {
            Admitted::Container(slot) => wide(slot.0),
            Admitted::Policy(slot) => wide(slot.0),
        },
        Err(refusal) => codes::refused_at(refusal),
    }
}

pub fn bihokura_admit_batch(
    memory: &mut [u64],
    blocks: &[u8],
    answers: &mut [u16],
    tally: &mut Tally,
) -> u64
    ensures result_after { (memory.new, result) ≡ coded_step memory.old (change (admit_batch blocks.now (length answers.old) tally.old)) }
    ensures answers_after { answers.new ≡ overwritten answers.old (written (memory_step memory.old (change (admit_batch blocks.now (length answers.old) tally.old))).1) }
    ensures tally_after { tally.new ≡ tally_left tally.old (memory_step memory.old (change (admit_batch blocks.now (length answers.old) tally.old))).1 }
{
    match registry::admit_batch(memory, blocks, answers, *tally) {
        Ok(after) => {
            *tally = after;
            0
        }
        Err(refusal) => codes::refused_at(refusal),
    }
}

pub fn bihokura_remove_container(memory: &mut [u64], number: u64) -> u64
    ensures { (memory.new, result) ≡ coded_step memory.old (change (remove_container number)) }
{
    outcome_code(registry::remove_container(memory, slot(number)))
}

pub fn bihokura_remove_policy(memory: &mut [u64], number: u64) -> u64
    ensures { (memory.new, result) ≡ coded_step memory.old (change (remove_policy number)) }
{
    outcome_code(registry::remove_policy(memory, slot(number)))
}

pub fn bihokura_reaches(memory: &[u64], a: u64, b: u64) -> u64
    ensures { (memory.now, result) ≡ coded_step memory.now (ask (ask_reaches a b)) }
{
    reply_code(registry::reaches(memory, slot(a), slot(b)))
}

pub fn bihokura_carries_user(memory: &[u64], number: u64, value: u64) -> u64
    ensures { (memory.now, result) ≡ coded_step memory.now (ask (ask_user number value)) }
{
    reply_code(registry::carries_user(memory, slot(number), value))
}

pub fn bihokura_next_finding(memory: &[u64], kind: u16, a: u16, b: u16) -> u64
    ensures { (memory.now, result) ≡ coded_step memory.now (ask (next_finding (record { kind = kind; a = a; b = b }))) }
{
    match registry::next_finding(memory, Cursor { kind, a, b }) {
        Ok(next) => match next {
            Some(found) => codes::finding_code(found.0),
            None => 0,
        },
        Err(reason) => codes::refused(reason),
    }
}

pub fn bihokura_findings(memory: &[u64], kind: u16, a: u16, b: u16, list: &mut [u64]) -> u64
    ensures result_value { (memory.now, result) ≡ coded_step memory.now (ask (list_findings (record { kind = kind; a = a; b = b }) (length list.old))) }
    ensures list_after { list.new ≡ overwritten list.old (written (memory_step memory.now (ask (list_findings (record { kind = kind; a = a; b = b }) (length list.old)))).1) }
{
    match registry::findings(memory, Cursor { kind, a, b }, list) {
        Ok(put) => wide(put.count),
        Err(reason) => codes::refused(reason),
    }
}

// The counts side by side in one number: each is small enough.
#[tactic(auto, unfolding(codes::specs::Codes::counts_code))]
fn packed(counts: Counts) -> u64
    requires { (counts.containers ≤ 256) × (counts.policies ≤ 128) × (counts.pairs ≤ 65536) }
    ensures { result ≡ counts_code counts.containers counts.policies counts.pairs }
{
    counts.containers + counts.policies * 65536 + counts.pairs * 4294967296
}

pub fn bihokura_counts(memory: &[u64]) -> u64
    ensures { (memory.now, result) ≡ coded_step memory.now (ask counts) }
{
    match registry::counts(memory) {
        Ok(counts) => packed(counts),
        Err(reason) => codes::refused(reason),
    }
}

pub fn bihokura_rebuild(memory: &mut [u64]) -> u64
    ensures { (memory.new, result) ≡ coded_step memory.old (change rebuild) }
{
    outcome_code(registry::rebuild(memory))
}

pub fn bihokura_audit(memory: &[u64]) -> u64
    ensures { (memory.now, result) ≡ coded_step memory.now (ask audit) }
{
    reply_code(registry::audit(memory))
}

pub fn bihokura_write(memory: &[u64], bytes: &mut [u8]) -> u64
    ensures result_value { (memory.now, result) ≡ coded_step memory.now (ask (write (length bytes.old))) }
    ensures bytes_after { bytes.new ≡ overwritten bytes.old (written (memory_step memory.now (ask (write (length bytes.old)))).1) }
{
    match registry::write(memory, bytes) {
        Ok(count) => wide(count),
        Err(reason) => codes::refused(reason),
    }
}
