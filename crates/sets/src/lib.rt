// A part's candidates by the entries, of one policy and of each.
#![tactic(auto)]

ghost use Rattle.std.specs.Prelude.{◌≡◌, ◌<◌};
ghost use Rattle.bitrow.specs.Bit.{bit_at};
ghost use Rattle.model.specs.Model.{policy_slots};
ghost use Rattle.formed.specs.Registry.{EntriesFormed};
ghost use Rattle.label_table.specs.LabelRows.{LabelRows};
ghost use Rattle.sets.specs.Sets.{RowsAre, EmptyBut, part_set, PartsWithin};

use label_table::LabelTable;
use store::Words;

// "Two sets for each policy: the containers it selects and those it allows."
#[derive(Clone, Copy)]
pub struct PolicySets {
    pub selected: [[u64; 4]; 128],
    pub allowed: [[u64; 4]; 128],
}

// Of the candidates, those that the part at an offset of policy q's slot matches; none where the slot is free.
// Kept: `PartsWithin` in three contracts ties two arguments, the memory and the offset; a type that has both would lend the memory again
// beside the one that the other clauses are of, and is no plainer. And an offset in place of a `Part`: what is promised is of any offset.
pub fn part_row(memory: &Words, q: usize, offset: usize, candidates: [u64; 4]) -> [u64; 4]
    requires { EntriesFormed memory.now × (q < 128) × PartsWithin memory.now offset }
    ensures { bit_at result ≡ part_set memory.now (bit_at candidates) offset q }
{
    let at = store::POLICIES + store::POLICY_WORDS * q;
    if memory[at] == 0 {
        return row_sets::none();
    }
    trials::trial(memory, at + offset, candidates)
}

// The same by the label rows.
fn part_by_labels(
    memory: &Words,
    table: &LabelTable,
    q: usize,
    offset: usize,
    candidates: [u64; 4],
) -> [u64; 4]
    requires { EntriesFormed memory.now × (q < 128) × PartsWithin memory.now offset × LabelRows memory.now 256 table.now }
    ensures { bit_at result ≡ part_set memory.now (bit_at candidates) offset q }
{
    let at = store::POLICIES + store::POLICY_WORDS * q;
    if memory[at] == 0 {
        return row_sets::none();
    }
    label_rows::matching(memory, table, at + offset, candidates)
}

// Such a row for each policy but `known`, whose row is there already.
pub fn fill(
    rows: &mut [[u64; 4]; 128],
    known: Option<usize>,
    memory: &Words,
    table: &LabelTable,
    offset: usize,
    candidates: [u64; 4],
)
    requires entries_formed { EntriesFormed memory.now × PartsWithin memory.now offset × LabelRows memory.now 256 table.now }
    requires empty_but { EmptyBut policy_slots known (part_set memory.now (bit_at candidates) offset) rows.old }
    ensures { RowsAre 128 (part_set memory.now (bit_at candidates) offset) rows.new }
{
    for q in 0..store::POLICY_SLOTS {
        if known != Some(q) {
            let row = part_by_labels(memory, table, q, offset, candidates);
            rows[q] = row;
        }
    }
}
