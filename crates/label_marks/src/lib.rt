// The containers put into the rows of their labels.
#![tactic(auto)]

ghost use Rattle.std.specs.Prelude.{◌≡◌, ◌<◌, eqb};
ghost use Rattle.model.specs.Rules.{carries};
ghost use Rattle.store.specs.Layout.{container_start};
ghost use Rattle.formed.specs.Words.{label_in, part_in};
ghost use Rattle.formed.specs.Registry.{EntriesFormed};
ghost use Rattle.entries.specs.Entries.{PartWithin};
ghost use Rattle.label_table.specs.LabelTable.{places};
ghost use Rattle.label_table.specs.Rows.{Shaped, Empty};
ghost use Rattle.label_table.specs.LabelRows.{Marked, LabelRows};

use label_table::LabelTable;
use store::Words;

// Container c in the row of a label.
fn mark(table: &mut LabelTable, label: u64, c: usize)
    requires { Shaped places table.old.rows × (c < 256) }
    ensures kept { table.new.labels ≡ table.old.labels }
    ensures marked { Marked table.old.labels c (λ v. eqb v label) table.old.rows table.new.rows }
{
    let h = label_table::place(&table.labels, label);
    if table.labels[h] == label {
        let k = c / 64;
        table.rows[h][k] = bitrow::word_with(table.rows[h][k], c);
    }
}

// Container c in the row of each of its labels.
fn mark_container(table: &mut LabelTable, memory: &[u64], c: usize)
    requires { PartWithin memory.now (container_start c) × Shaped places table.old.rows × (c < 256) }
    ensures kept { table.new.labels ≡ table.old.labels }
    ensures marked { Marked table.old.labels c (λ v. carries (part_in memory.now (container_start c)) (label_in v)) table.old.rows table.new.rows }
{
    let at = store::CONTAINERS + store::CONTAINER_WORDS * c;
    for label in entries::labels_of(memory, at) {
        mark(table, *label, c);
    }
}

// Every container in the rows of its labels, where the rows are empty before.
pub fn mark_all(table: &mut LabelTable, memory: &Words)
    requires { EntriesFormed memory.now × Empty places table.old.rows }
    ensures kept { table.new.labels ≡ table.old.labels }
    ensures marked { LabelRows memory.now 256 table.new }
{
    for c in 0..store::CONTAINER_SLOTS {
        mark_container(table, memory, c);
    }
}
