// Labels of the parts of entries, read from a memory.
#![tactic(auto)]

ghost use Rattle.std.specs.Prelude.{◌≡◌};
ghost use Rattle.model.specs.Rules.{carries as carries_label};
ghost use Rattle.formed.specs.Words.{label_in, part_in};
ghost use Rattle.entries.specs.Entries.{PartWithin, word_under};

// Whether the part whose header is at `at` has the label that is this word.
// Kept: the memory with a position: a slice of the part's labels would be no plainer, since the clause is of a part of the memory, and each
// caller would call `labels_of` for it.
pub fn carries(memory: &[u64], at: usize, word: u64) -> bool
    requires { PartWithin memory.now at }
    ensures { result ≡ carries_label (part_in memory.now at) (label_in word) }
{
    entries::labels_of(memory, at).contains(&word)
}

// The word of the label under this key of the part whose header is at `at`, 0 where it has none.
// Kept: as above; and 0 for none, as the definition has it: no label's word is 0.
pub fn word_under(memory: &[u64], at: usize, key: u64) -> u64
    requires { PartWithin memory.now at }
    ensures { result ≡ word_under key (part_in memory.now at) }
{
    entries::labels_of(memory, at)
        .iter()
        .copied()
        .find(|word| *word / 65536 == key)
        .unwrap_or(0)
}
