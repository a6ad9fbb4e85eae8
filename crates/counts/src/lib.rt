// The counts: set pairs of the matrix, standing containers, standing policies.
#![tactic(auto)]

ghost use Rattle.std.specs.Prelude.{◌≡◌, length};
ghost use Rattle.model.specs.Table.{standing};
ghost use Rattle.model.specs.Findings.{pairs as set_pairs};
ghost use Rattle.formed.specs.Registry.{bits_in};

use entries::Slot;
use store::Words;

// "PAIRS is the number of set bits in the matrix", word by word.
pub fn pairs(memory: &Words) -> u64
    ensures { result ≡ set_pairs (bits_in memory.now) }
{
    let mut n = 0;
    for a in 0..store::CONTAINER_SLOTS {
        n += u64::from(row_reads::count(access::row_at(memory, a)));
    }
    n
}

// The number of standing slots of a table.
pub fn count_standing<S: Slot>(memory: &Words) -> u64
    ensures { result ≡ length (standing (S.table memory.now)) }
{
    u64::from(row_reads::count(stored::standing::<S>(memory)))
}
