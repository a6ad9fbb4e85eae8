// Entries in a memory: definitions and laws, and the slots of the two tables.
#![tactic(auto)]

ghost use Rattle.std.specs.Prelude.{◌≡◌, ℕ, List, map, refl};
ghost use Rattle.block.specs.Entry.{Container, Policy, Entry as AnyEntry, container, policy};
ghost use Rattle.model.specs.Table.{Table};
ghost use Rattle.model.specs.Model.{container_slots, policy_slots};
ghost use Rattle.store.specs.Layout.{containers_start, container_words, policies_start, policy_words};
ghost use Rattle.formed.specs.Words.{label_in, part_in, policy_at};
ghost use Rattle.formed.specs.Registry.{model_in};
ghost use Rattle.entries.specs.Entries.{PartWithin, label_words};
ghost use Rattle.entries.specs.Tables.{Tabled, container_entry, container_tabled, policy_tabled};

use model::{ContainerSlot, PolicySlot};

// A slot of one of the two tables of entries.
pub trait Slot: Copy {
    // Where the first slot of the table begins in the memory, how many words a slot has, and how many slots there are.
    const START: usize;

    const WORDS: usize;

    const SLOTS: usize;

    ghost START: { ℕ };

    ghost WORDS: { ℕ };

    ghost SLOTS: { ℕ };

    // The entry that the words of slot i say where it is taken, and the table that the memory says.
    ghost Entry: { Type 0 };

    ghost entry: { List ℕ → ℕ → Entry };

    // The same as an entry of either table.
    ghost either: { Entry → AnyEntry };

    ghost table: { List ℕ → Table Entry };

    ghost at: { ℕ → Self };

    ghost index: { Self → ℕ };

    fn at(i: usize) -> Self
        ensures { result ≡ at i };

    fn index(self) -> usize
        ensures { result ≡ index self };

    ghost index_of_at: { (i : ℕ) → index (at i) ≡ i };

    ghost tabled: { (m : List ℕ) → Tabled START WORDS SLOTS (entry m) m (table m) };
}

impl Slot for ContainerSlot {
    const START: usize = store::CONTAINERS;

    const WORDS: usize = store::CONTAINER_WORDS;

    const SLOTS: usize = store::CONTAINER_SLOTS;

    ghost START = { containers_start };

    ghost WORDS = { container_words };

    ghost SLOTS = { container_slots };

    ghost Entry = { Container };

    ghost entry = { container_entry };

    ghost either = { container };

    ghost table = { λ m. (model_in m).containers };

    ghost at = { λ i. record { 0 = i } };

    ghost index = { λ s. s.0 };

    ghost index_of_at = { λ i. refl };

    ghost tabled = { container_tabled };

    fn at(i: usize) -> ContainerSlot {
        ContainerSlot(i)
    }

    fn index(self) -> usize {
        self.0
    }
}

impl Slot for PolicySlot {
    const START: usize = store::POLICIES;

    const WORDS: usize = store::POLICY_WORDS;

    const SLOTS: usize = store::POLICY_SLOTS;

    ghost START = { policies_start };

    ghost WORDS = { policy_words };

    ghost SLOTS = { policy_slots };

    ghost Entry = { Policy };

    ghost entry = { policy_at };

    ghost either = { policy };

    ghost table = { λ m. (model_in m).policies };

    ghost at = { λ i. record { 0 = i } };

    ghost index = { λ s. s.0 };

    ghost index_of_at = { λ i. refl };

    ghost tabled = { policy_tabled };

    fn at(i: usize) -> PolicySlot {
        PolicySlot(i)
    }

    fn index(self) -> usize {
        self.0
    }
}

// The words of the labels of the part whose header is at `part`.
pub fn labels_of(memory: &[u64], part: usize) -> &[u64]
    requires { PartWithin memory.now part }
    ensures words { result.now ≡ label_words memory.now part }
    ensures labels { map label_in result.now ≡ part_in memory.now part }
{
    // Kept: std has no `From<u64>` for `usize`, and `try_from` gives an error that never comes.
    let count = (memory[part] as usize).saturating_sub(1);
    &memory[part + 1..part + 1 + count]
}
