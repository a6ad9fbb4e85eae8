// The blocks of settings and of entries, from the words of a memory. Each byte of a block is set, whatever it held.
#![tactic(auto)]

ghost use Rattle.std.specs.Prelude.{◌≡◌, ◌+◌, ◌*◌, ◌<◌, ◌≤◌, [], ◌∷◌, List, ℕ, length, map};
ghost use Rattle.std.proofs.Math.Option.{some};
ghost use Rattle.block.specs.Written.{label_bytes, block_of, settings_block};
ghost use Rattle.model.specs.Table.{at as slot_at};
ghost use Rattle.store.specs.Layout.{word_at};
ghost use Rattle.formed.specs.Words.{label_in, settings_in};
ghost use Rattle.formed.specs.Registry.{model_in, EntriesFormed};
ghost use Rattle.sealing.specs.Sealing.{Summed, Lengthens};
ghost use Rattle.entry_blocks.specs.Labels.{LabelsFit};
ghost use Rattle.entry_blocks.specs.Sizes.{container-size, policy-size};

use entries::Slot;
use model::{ContainerSlot, PolicySlot};
use store::Words;

// Labels, each a word, put behind the first `at` bytes. Answers the sum with these.
// Kept: the block with a position and the sum so far: a struct of them would hold a `&mut` that is lent on for each number, as at
// `sealing::put_number`.
fn put_labels(labels: &[u64], block: &mut [u8], at: usize, sum: u64) -> u64
    requires { LabelsFit labels.now at × Summed block.old at sum }
    ensures { Lengthens block.old at (label_bytes (map label_in labels.now)) block.new result }
{
    let mut to = at;
    let mut total = sum;
    for word in labels {
        let keyed = sealing::put_number(block, to, *word / 65536, total);
        total = sealing::put_number(block, to + 2, *word % 65536, keyed);
        to += 4;
    }
    total
}

// Two bytes put behind the first `at` bytes. Answers the sum with these.
// Kept: as at `put_labels`.
fn put_two(block: &mut [u8], at: usize, high: u64, low: u64, sum: u64) -> u64
    requires { Summed block.old at sum × (at + 2 ≤ 510) × (high < 256) × (low < 256) }
    ensures { Lengthens block.old at (high ∷ low ∷ []) block.new result }
{
    sealing::put_number(block, at, high * 256 + low, sum)
}

// Kept: a block as a slice of 512 bytes: an array would be no plainer, since of a part of a buffer it is an Option, at each block.
pub fn write_settings(memory: &Words, block: &mut [u8])
    requires { EntriesFormed memory.now × (length block.old ≡ 512) }
    ensures { block.new ≡ settings_block (settings_in memory.now) }
{
    let user = put_two(block, 0, 83, memory[0], 0);
    let system = put_two(block, 2, memory[1], 0, user);
    let value = sealing::put_number(block, 4, memory[2], system);
    sealing::seal(block, 6, value);
}

// A slot whose entry can be written as a block.
pub trait Filed: Slot {
    // The block of the entry that stands at the slot.
    fn write_entry(self, memory: &Words, block: &mut [u8])
        requires { EntriesFormed memory.now × (Self.index self < Self.SLOTS)
            × (0 < word_at memory.now (Self.START + Self.WORDS * Self.index self))
            × (length block.old ≡ 512) }
        ensures { block.new ≡ block_of (Self.either (Self.entry memory.now (Self.index self))) };

    ghost block_length: { (m : List ℕ) → EntriesFormed m → (i : ℕ) (x : Self.Slot.Entry)
        → slot_at (Self.Slot.table m) i ≡ some x
        → length (block_of (Self.Slot.either x)) ≡ 512 };
}

impl Filed for ContainerSlot {
    ghost block_length = { λ m ok. container-size (model_in m) ok.entries };

    fn write_entry(self, memory: &Words, block: &mut [u8]) {
        let at = store::CONTAINERS + store::CONTAINER_WORDS * self.0;
        let labels = entries::labels_of(memory, at);
        let count = memory[at] - 1;
        let kind = put_two(block, 0, 67, count, 0);
        let unused = put_two(block, 2, 0, 0, kind);
        let sum = put_labels(labels, block, 4, unused);
        sealing::seal(block, 4 + 4 * labels.len(), sum);
    }
}

impl Filed for PolicySlot {
    ghost block_length = { λ m ok. policy-size (model_in m) ok.entries };

    fn write_entry(self, memory: &Words, block: &mut [u8]) {
        let at = store::POLICIES + store::POLICY_WORDS * self.0;
        let select = entries::labels_of(memory, at + store::SELECT);
        let allow = entries::labels_of(memory, at + store::ALLOW);
        let selects = memory[at + store::SELECT] - 1;
        let allows = memory[at + store::ALLOW] - 1;
        let behind = 4 + 4 * select.len();
        let direction = put_two(block, 0, 80, memory[at], 0);
        let counts = put_two(block, 2, selects, allows, direction);
        let selected = put_labels(select, block, 4, counts);
        let allowed = put_labels(allow, block, behind, selected);
        sealing::seal(block, behind + 4 * allow.len(), allowed);
    }
}
