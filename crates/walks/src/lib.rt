// The calls that give the findings after a cursor: the next one, or as many as a list holds.
#![tactic(auto)]

ghost use Rattle.std.specs.Prelude.{◌≡◌, length};
ghost use Rattle.buffer.specs.Buffer.{overwritten};
ghost use Rattle.model.specs.Calls.{ask, next_finding, list_findings, written};
ghost use Rattle.findings.specs.Steps.{cursor_place};
ghost use Rattle.steps.specs.MemoryStep.{memory_step};
ghost use Rattle.answers.specs.Answers.{next_answer, put_answer, count_put};

use block::Reason;
use findings::{Cursor, Put};
use model::Finding;

// The first finding after the cursor's three numbers, whatever they are.
pub fn next_finding(memory: &[u64], cursor: Cursor) -> Result<Option<(Finding, Cursor)>, Reason>
    ensures { (memory.now, next_answer result) ≡ memory_step memory.now (ask (next_finding (cursor_place cursor))) }
{
    let memory = call_tests::formed_memory(memory)?;
    Ok(cursor.next(memory))
}

// The findings after the cursor, as many as the list holds, each as one number, kind * 2^32 + a * 2^16 + b. The rest of the list is
// kept.
pub fn findings(memory: &[u64], cursor: Cursor, list: &mut [u64]) -> Result<Put, Reason>
    ensures list_after { (memory.now, put_answer result list.new) ≡ memory_step memory.now (ask (list_findings (cursor_place cursor) (length list.old))) }
    ensures result_value { count_put result ≡ length (written (memory_step memory.now (ask (list_findings (cursor_place cursor) (length list.old)))).1) }
    ensures list_after_2 { list.new ≡ overwritten list.old (written (memory_step memory.now (ask (list_findings (cursor_place cursor) (length list.old)))).1) }
{
    let memory = call_tests::formed_memory(memory)?; // refused, it puts nothing
    Ok(cursor.list(memory, list))
}
