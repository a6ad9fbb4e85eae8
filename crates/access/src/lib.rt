// Slots and rows of bits, read and written.
#![tactic(auto)]

ghost use Rattle.std.specs.Prelude.{◌≡◌, ◌+◌, ◌<◌, ◌≤◌, length};
ghost use Rattle.store.specs.Layout.{row_count, row_at};
ghost use Rattle.store.specs.Memory.{slot_set, row_set, cleared};

use store::Words;

// Row r of the rows of bits.
// Kept: the row's bound as a clause: a type of row numbers would be no plainer, since callers add a slot's number to where its table's rows
// begin, and would make one at each call.
pub fn row_at(memory: &Words, r: usize) -> [u64; 4]
    requires { r < row_count }
    ensures { result ≡ row_at memory.now r }
{
    let at = store::ROWS + store::ROW_WORDS * r;
    [memory[at], memory[at + 1], memory[at + 2], memory[at + 3]]
}

// A slot of n words made free: every word from `start` on 0.
// Kept: the memory with `start`: a slice of the n words would be no plainer, since the clause is of the whole memory, and each caller would
// carry the slice's back to it.
pub fn clear_slot(memory: &mut [u64], start: usize, n: usize)
    requires { start + n ≤ length memory.old }
    ensures { memory.new ≡ slot_set memory.old start n (λ k. 0) }
{
    memory[start..start + n].fill(0);
}

pub fn set_row(memory: &mut Words, r: usize, row: [u64; 4])
    requires { r < row_count }
    ensures { memory.new ≡ row_set memory.old r row }
{
    let at = store::ROWS + store::ROW_WORDS * r;
    memory[at..at + store::ROW_WORDS].copy_from_slice(&row);
}

// Every word 0.
#[tactic(auto, unfolding(store::specs::Memory::cleared))]
pub fn clear(memory: &mut [u64])
    ensures { memory.new ≡ cleared memory.old }
{
    memory.fill(0);
}
