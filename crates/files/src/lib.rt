// A registry as a file: the settings block, the standing containers by slot, then the policies by slot.
#![tactic(auto)]

ghost use Rattle.std.specs.Prelude.{◌≡◌, ◌+◌, ◌≤◌, length};
ghost use Rattle.buffer.specs.Buffer.{Puts};
ghost use Rattle.model.specs.File.{file_of};
ghost use Rattle.formed.specs.Registry.{model_in, EntriesFormed};
ghost use Rattle.files.specs.Tables.{table_blocks, block_by};

use entry_blocks::Filed;
use model::{ContainerSlot, PolicySlot};
use store::Words;

// The blocks of the standing entries of a table, put from byte `start` on. Answers where they end.
// Kept: the buffer with a position: the rest of it as a slice would be no plainer, since each caller would carry its clause back to the
// whole buffer.
fn put_table<S: Filed>(memory: &Words, bytes: &mut [u8], start: usize) -> usize
    requires { EntriesFormed memory.now × (start + length (table_blocks (block_by S.either) (S.table memory.now)) ≤ length bytes.old) }
    ensures { Puts bytes.old start (table_blocks (block_by S.either) (S.table memory.now)) bytes.new result }
{
    let mut at = start;
    for i in 0..S::SLOTS {
        if memory[S::START + S::WORDS * i] != 0 {
            let end = at + 512;
            S::at(i).write_entry(memory, &mut bytes[at..end]);
            at = end;
        }
    }
    at
}

// How many bytes the file has.
#[tactic(auto, using(crate::proofs::FileLaws::entries_few, crate::proofs::FileLaws::file_blocks))]
pub fn file_length(memory: &Words) -> usize
    requires { EntriesFormed memory.now }
    ensures { result ≡ length (file_of (model_in memory.now)) }
{
    let entries = counts::count_standing::<ContainerSlot>(memory)
        + counts::count_standing::<PolicySlot>(memory);
    // Kept: the `as`: no `From` makes a `usize` of a `u64`, and a `TryFrom` would add a refusal that cannot come.
    512 * (1 + entries as usize)
}

// The file, put over the first bytes. Answers how many it has.
pub fn put_file(memory: &Words, bytes: &mut [u8]) -> usize
    requires { EntriesFormed memory.now × (length (file_of (model_in memory.now)) ≤ length bytes.old) }
    ensures { Puts bytes.old 0 (file_of (model_in memory.now)) bytes.new result }
{
    entry_blocks::write_settings(memory, &mut bytes[0..512]);
    let behind = put_table::<ContainerSlot>(memory, bytes, 512);
    put_table::<PolicySlot>(memory, bytes, behind)
}
