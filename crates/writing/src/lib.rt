// The call that puts a registry back into blocks.
#![tactic(auto)]

ghost use Rattle.std.specs.Prelude.{◌≡◌, length};
ghost use Rattle.buffer.specs.Buffer.{overwritten};
ghost use Rattle.model.specs.Calls.{ask, write as write_into, written};
ghost use Rattle.steps.specs.MemoryStep.{memory_step};
ghost use Rattle.answers.specs.Answers.{file_answer, count_bytes};

use block::Reason;

// The settings block, then a block for each standing container by slot, then for each standing policy by slot, over the first bytes of
// the buffer. The rest of the buffer is kept.
pub fn write(memory: &[u64], bytes: &mut [u8]) -> Result<usize, Reason>
    ensures bytes_after { (memory.now, file_answer result bytes.new) ≡ memory_step memory.now (ask (write_into (length bytes.old))) }
    ensures result_value { count_bytes result ≡ length (written (memory_step memory.now (ask (write_into (length bytes.old)))).1) }
    ensures bytes_after_2 { bytes.new ≡ overwritten bytes.old (written (memory_step memory.now (ask (write_into (length bytes.old)))).1) }
{
    let memory = call_tests::formed_memory(memory)?;
    if bytes.len() < files::file_length(memory) {
        return Err(Reason::BufferLength);
    }
    Ok(files::put_file(memory, bytes))
}
