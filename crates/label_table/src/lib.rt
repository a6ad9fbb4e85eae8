// A table of labels. A label is found by probing; nothing is asked of the table, nor of where probing begins: a label that is not found
// costs time, never truth.
#![tactic(auto)]

ghost use Rattle.std.specs.Prelude.{◌≡◌, ◌<◌};
ghost use Rattle.formed.specs.Registry.{EntriesFormed};
ghost use Rattle.entries.specs.Entries.{PartWithin};
ghost use Rattle.label_table.specs.LabelTable.{places, first_place, table_place, entered, in_turn, part_entered, policy_entered};

use store::Words;

// At each place a label, or 0, and the row of the containers that carry it.
// Kept: two arrays, since a place is found and a label entered by the labels alone, and a set's rows are an array of rows
// (docs/DECISIONS.md 24).
#[derive(Drop)]
pub struct LabelTable {
    pub labels: [u64; 1024],
    pub rows: [[u64; 4]; 1024],
}

// Where probing for a label begins: the top ten of the low 32 bits of its product with 2^32 divided by the golden ratio. Any number below
// 1024 would do: see above.
// Kept: the cast, since a label is a word of memory and std has no `From` from u64 to usize; `try_from` adds an error that cannot be.
#[tactic(auto, unfolding(crate::specs::LabelTable::first_place))]
fn first_place(label: u64) -> usize
    ensures { (result ≡ first_place label) × (result < places) }
{
    (label % 8388608 * 2654435769 / 4194304 % 1024) as usize
}

// The place of a label: of those probed, the first that has it or nothing.
pub fn place(labels: &[u64; 1024], label: u64) -> usize
    ensures { (result ≡ table_place labels.now label) × (result < places) }
{
    let mut h = first_place(label);
    for _probe in 0..8usize {
        let there = labels[h];
        if (there == label) | (there == 0) {
            return h;
        }
        h = (h + 1) % 1024;
    }
    h
}

// The label entered at its place, if nothing is there. The functions that enter labels say which table they leave;
// nothing needs a fact of it: see above.
fn enter(labels: &mut [u64; 1024], label: u64)
    ensures { labels.new ≡ entered labels.old label }
{
    let h = place(labels, label);
    if labels[h] == 0 {
        labels[h] = label;
    }
}

// The labels of the part whose header is at `part`.
// Kept: the memory with a position: the part's labels as a slice would be no plainer, since each caller would call `labels_of` for them,
// and the definition is of a part of the memory.
fn enter_part(labels: &mut [u64; 1024], memory: &[u64], part: usize)
    requires { PartWithin memory.now part }
    ensures { labels.new ≡ part_entered memory.now labels.old part }
{
    for label in entries::labels_of(memory, part) {
        enter(labels, *label);
    }
}

// The labels of every policy's parts.
pub fn enter_all(labels: &mut [u64; 1024], memory: &Words)
    requires { EntriesFormed memory.now }
    ensures { labels.new ≡ in_turn (policy_entered memory.now) 0 128 labels.old }
{
    for q in 0..store::POLICY_SLOTS {
        let at = store::POLICIES + store::POLICY_WORDS * q;
        enter_part(labels, memory, at + store::SELECT);
        enter_part(labels, memory, at + store::ALLOW);
    }
}
