// The search for a free slot.
#![tactic(auto)]

ghost use Rattle.std.specs.Prelude.{◌≡◌, ◌-◌};
ghost use Rattle.bitrow.specs.Set.{first_of};
ghost use Rattle.model.specs.Table.{lowest_free};
ghost use Rattle.entries.specs.Entries.{free_in, SlotsWithin, NoneFree, slot_found};

use entries::Slot;
use store::Words;

// The first free one of the slots from `from` on. A slot of `words` words is free if its first word is 0.
// Kept: the memory with the place of a table: a slice of the table's words would be no plainer, since each clause would have to be carried
// back to the memory whose table it is.
fn lowest_free(
    memory: &[u64],
    start: usize,
    words: usize,
    from: usize,
    slots: usize,
) -> Option<usize>
    requires { SlotsWithin memory.now start words slots }
    ensures { result ≡ first_of (free_in memory.now start words) from (slots - from) }
{
    for i in from..slots {
        if memory[start + words * i] == 0 {
            return Some(i);
        }
    }
    None
}

// The lowest free slot of a table, where none below `from` is free.
// Kept: `from` is the number of a slot, and no position in the memory: no slice begins at it.
pub fn free_from<S: Slot>(memory: &Words, from: usize) -> Option<S>
    requires { NoneFree (S.table memory.now) from }
    ensures { result ≡ slot_found S.at (lowest_free (S.table memory.now)) }
{
    let i = lowest_free(memory, S::START, S::WORDS, from, S::SLOTS)?;
    Some(S::at(i))
}

// The lowest free slot of a table.
pub fn free_slot<S: Slot>(memory: &Words) -> Option<S>
    ensures { result ≡ slot_found S.at (lowest_free (S.table memory.now)) }
{
    free_from(memory, 0)
}
