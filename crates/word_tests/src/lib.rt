// The tests of one word and of rows: a label, and the bits of many rows, joined.
#![tactic(auto)]

ghost use Rattle.std.specs.Prelude.{◌≡◌, ◌&&◌, ◌<◌, ◌/◌, ◌%◌, ltb, Bool, true, ℕ};
ghost use Rattle.bitrow.specs.Bit.{bit_at};
ghost use Rattle.store.specs.Layout.{row_count};
ghost use Rattle.formed.specs.Tests.{row_ok};
ghost use Rattle.word_tests.specs.Joined.{rows_ok};

use store::Words;

// A label's word after the key `last`: its key exceeds that one, and its value is not zero. Keys that rise so are in range where the last
// of them is, which is asked once of a whole part.
pub fn follows(last: u64, w: u64) -> bool
    ensures { result ≡ (ltb last (w / 65536) && ltb 0 (w % 65536)) }
{
    (last < w / 65536) & (0 < w % 65536)
}

// Rows joined: those of slots that stand, and those of free slots.
#[derive(Clone, Copy)]
pub struct Joined {
    pub owned: [u64; 4],
    pub free: [u64; 4],
}

impl Joined {
    // No row.
    pub fn none() -> Joined
        ensures { (s : ℕ → Bool) → rows_ok result s ≡ true }
    {
        Joined {
            owned: row_sets::none(),
            free: row_sets::none(),
        }
    }

    // Row r of the memory with them, by the first word of its owner's slot: a free slot's is 0.
    pub fn with(self, memory: &Words, r: usize, owner: u64) -> Joined
        requires { r < row_count }
        ensures { (s : ℕ → Bool) → rows_ok result s ≡ (rows_ok self s && row_ok memory.now s owner r) }
    {
        let Joined { owned, free } = self;
        let row = access::row_at(memory, r);
        if owner == 0 {
            let free = row_sets::either(free, row);
            return Joined { owned, free };
        }
        let owned = row_sets::either(owned, row);
        Joined { owned, free }
    }

    // Each of them has only bits of standing containers, and none where its slot is free: asked once, of what all of them have.
    #[tactic(auto, unfolding(crate::specs::Joined::rows_ok))]
    pub fn ok(self, standing: [u64; 4]) -> bool
        ensures { result ≡ rows_ok self (bit_at standing) }
    {
        row_tests::part_of(self.owned, standing) & row_tests::is_empty(self.free)
    }
}
