// What each policy selects and allows, of all policies at once.
#![tactic(auto)]

ghost use Rattle.std.specs.Prelude.{◌≡◌};
ghost use Rattle.bitrow.specs.Bit.{bit_at};
ghost use Rattle.model.specs.Table.{stands};
ghost use Rattle.formed.specs.Registry.{model_in, EntriesFormed};
ghost use Rattle.sets.specs.Sets.{KnownSets, SetsOf};

use label_table::LabelTable;
use sets::PolicySets;
use store::Words;

// What each policy selects and what it allows, by the label rows; the sets of the policy `known` are there already.
// Kept: that the entries of the memory are formed as a clause, here and wherever entries are read: a struct that lends the memory with a
// ghost field for it was tried in `label_table`, and is no plainer: each clause then says `formed.entry.memory.now` for `memory.now`, each
// caller makes the struct, and a change, in whose middle the memory is formed no more, keeps the clause. And what `standing` is to the
// memory: a struct that carried it would lend the memory, which a change writes between the calls that are given the row.
fn fill_by_labels(memory: &Words, standing: [u64; 4], known: Option<usize>, sets: &mut PolicySets)
    requires entries_formed { EntriesFormed memory.now × (bit_at standing ≡ stands (model_in memory.now).containers) }
    requires known_sets { KnownSets (model_in memory.now) known sets.old }
    ensures { SetsOf (model_in memory.now) sets.new }
{
    let mut table = LabelTable {
        labels: [0; 1024],
        rows: [[0; 4]; 1024],
    };
    label_table::enter_all(&mut table.labels, memory);
    label_marks::mark_all(&mut table, memory);
    sets::fill(
        &mut sets.selected,
        known,
        memory,
        &table,
        store::SELECT,
        standing,
    );
    sets::fill(
        &mut sets.allowed,
        known,
        memory,
        &table,
        store::ALLOW,
        standing,
    );
}

// What each policy selects and what it allows, into rows that are empty but for those of the policy `known`, if any, whose sets are
// there already. Where no policy stands all rows stay as they are.
pub fn fill_sets(memory: &Words, standing: [u64; 4], known: Option<usize>, sets: &mut PolicySets)
    requires entries_formed { EntriesFormed memory.now × (bit_at standing ≡ stands (model_in memory.now).containers) }
    requires known_sets { KnownSets (model_in memory.now) known sets.old }
    ensures { SetsOf (model_in memory.now) sets.new }
{
    if row_tests::is_empty(stored::standing::<model::PolicySlot>(memory)) {
        return;
    }
    fill_by_labels(memory, standing, known, sets);
}
