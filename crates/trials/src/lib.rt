// The trial of a part: which of the candidates carry every label of it.
#![tactic(auto)]

ghost use Rattle.std.specs.Prelude.{◌≡◌, ◌<◌, map};
ghost use Rattle.bitrow.specs.Bit.{bit, bit_at};
ghost use Rattle.bitrow.specs.Set.{meet, under};
ghost use Rattle.model.specs.Rules.{carries as carries_label, matches as matches_part};
ghost use Rattle.formed.specs.Words.{label_in, part_in};
ghost use Rattle.entries.specs.Entries.{PartOfLabels, SlotAt, SlotsFormed, SlotsFrom, trial_set};
ghost use Rattle.trials.specs.Words.{NoneZero, carrying_from};

use row_members::Bits;
use store::Words;

// Whether the container whose slot is at `at` has the label that is this word. Its count is not read: the words past its labels are
// zero, and no label is.
// Kept: the memory with a position, since the law of the eight words is one of a slot in the memory; no `contains`, since the eight
// comparisons have no branch between them (docs/DECISIONS.md 30).
fn slot_carries(memory: &[u64], at: usize, word: u64) -> bool
    requires { SlotAt memory.now at × (0 < word) }
    ensures { result ≡ carries_label (part_in memory.now at) (label_in word) }
{
    (memory[at + 1] == word)
        | (memory[at + 2] == word)
        | (memory[at + 3] == word)
        | (memory[at + 4] == word)
        | (memory[at + 5] == word)
        | (memory[at + 6] == word)
        | (memory[at + 7] == word)
        | (memory[at + 8] == word)
}

// Whether the container whose slot is at `at` has each of these labels.
// Kept: the memory with a position, which `slot_carries` needs.
fn matches(memory: &[u64], labels: &[u64], at: usize) -> bool
    requires { NoneZero labels.now × SlotAt memory.now at }
    ensures { result ≡ matches_part (map label_in labels.now) (part_in memory.now at) }
{
    labels.iter().all(|word| slot_carries(memory, at, *word))
}

// The trial of a part's labels over 64 containers, of which `word` has the candidates and whose slots stand one after another from `at` on.
// Kept: the memory with a position, as at `matches`.
fn trial_word(memory: &[u64], labels: &[u64], word: u64, at: usize) -> u64
    requires { NoneZero labels.now × SlotsFrom memory.now at }
    ensures { bit result ≡ meet (meet (bit word) (carrying_from memory.now labels.now at)) (under 64) }
{
    let mut chosen = 0u64;
    for k in Bits(word) {
        let i = usize::from(k);
        if matches(memory, labels, at + store::CONTAINER_WORDS * i) {
            chosen = bitrow::word_with(chosen, i);
        }
    }
    chosen
}

// The trial of a part: those of the candidates that carry every label of it.
// Kept: the memory with a position: a slice of the part's words would be no plainer, since the slots are read from the memory too, and the
// clause is of a part of that memory.
pub fn trial(memory: &Words, part: usize, candidates: [u64; 4]) -> [u64; 4]
    requires { PartOfLabels memory.now part × SlotsFormed memory.now }
    ensures { bit_at result ≡ trial_set memory.now part (bit_at candidates) }
{
    let labels = entries::labels_of(memory, part);
    [
        trial_word(memory, labels, candidates[0], store::CONTAINERS),
        trial_word(memory, labels, candidates[1], store::CONTAINERS_64),
        trial_word(memory, labels, candidates[2], store::CONTAINERS_128),
        trial_word(memory, labels, candidates[3], store::CONTAINERS_192),
    ]
}
