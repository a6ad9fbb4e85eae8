// What is stored: the standing slots of each table, the sets of a policy.
#![tactic(auto)]

ghost use Rattle.std.specs.Prelude.{◌≡◌, ◌+◌, ◌*◌, ◌<◌, ◌≤◌, length};
ghost use Rattle.bitrow.specs.Bit.{bit, bit_at};
ghost use Rattle.bitrow.specs.Set.{meet, under};
ghost use Rattle.model.specs.Table.{stands};
ghost use Rattle.formed.specs.Registry.{bits_in, set_in};
ghost use Rattle.formed.specs.Tests.{firsts};

use entries::Slot;
use store::{Part, Words};

// A bit for each of 64 slots, `step` words apart from word `at` on: set where the slot's first word is this one.
// Kept: the memory with `at`: a slice of 64 slots would be no plainer, since the clause is of the memory's words, and each caller would
// carry the slice's back to it.
pub fn slots_with(memory: &[u64], at: usize, step: usize, first: u64) -> u64
    requires { (at + 64 * step ≤ length memory.now) × (0 < step) }
    ensures { bit result ≡ meet (firsts memory.now at step first) (under 64) }
{
    let mut word = 0;
    for k in 0..64 {
        if memory[at + step * k] == first {
            word = bitrow::word_with(word, k);
        }
    }
    word
}

// The standing slots of a table.
pub fn standing<S: Slot>(memory: &Words) -> [u64; 4]
    ensures { bit_at result ≡ stands (S.table memory.now) }
{
    let words = S::WORDS;
    let mut row = [0; 4];
    for k in 0..S::SLOTS / 64 {
        row[k] = !slots_with(memory, S::START + 64 * words * k, words, 0);
    }
    row
}

// What policy q selects or allows, as stored.
pub fn stored_set(memory: &Words, part: Part, q: usize) -> [u64; 4]
    requires { q < 128 }
    ensures { bit_at result ≡ set_in (bits_in memory.now) part q }
{
    access::row_at(memory, part.band().row(q))
}
