// Parts: a list of labels carried from a block into the memory.
#![tactic(auto)]

ghost use Rattle.std.specs.Prelude.{◌≡◌, ◌+◌, ◌*◌, ◌≤◌, length};
ghost use Rattle.block.specs.Reader.{labels_at};
ghost use Rattle.store.specs.Memory.{slot_set};
ghost use Rattle.formed.specs.Words.{part_word};

// Label k of the n from byte `from` of a block, as a word; 0 past them.
// Kept: the block with `from`, since a slice of the labels alone would have to be carried back to the block that the contracts read.
fn label_word(block: &[u8], from: usize, n: usize, k: usize) -> u64
    requires { from + 4 * n ≤ length block.now }
    ensures { result ≡ part_word (labels_at block.now from n) (1 + k) }
{
    if k < n {
        let at = from + 4 * k;
        let key = block_bytes::number_at(block, at);
        let value = block_bytes::number_at(block, at + 2);
        return key * 65536 + value;
    }
    0
}

// The n labels from byte `from` of a block, put as a part of `limit` labels at word `at`: header, labels, zeros.
// Kept: the memory and the block with positions: slices of both would be no plainer, since each caller would carry the clause back to the
// memory and the block; and the `as`, since no `From` makes a `u64` of a `usize`.
pub fn put_part(memory: &mut [u64], at: usize, limit: usize, block: &[u8], from: usize, n: usize)
    requires { (at + (1 + limit) ≤ length memory.old) × (from + 4 * n ≤ length block.now) }
    ensures { memory.new ≡ slot_set memory.old at (1 + limit) (part_word (labels_at block.now from n)) }
{
    memory[at] = 1 + n as u64;
    for k in 0..limit {
        memory[at + 1 + k] = label_word(block, from, n, k);
    }
}
