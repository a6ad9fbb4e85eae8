// Bits of the matrix set by the rules from the entries: those of some rows and columns.
#![tactic(auto)]

ghost use Rattle.std.specs.Prelude.{◌≡◌, ◌<◌};
ghost use Rattle.bitrow.specs.Bit.{bit_at};
ghost use Rattle.model.specs.Table.{stands};
ghost use Rattle.store.specs.Layout.{row_count};
ghost use Rattle.formed.specs.Registry.{model_in, registry_in, image, EntriesFormed};
ghost use Rattle.matrix_rows.specs.Rows.{Ungathered};
ghost use Rattle.policy_sets.specs.PolicySets.{SetsStored};
ghost use Rattle.matrix_resets.specs.Resets.{RowReset, RowsFrom, product, reset_where};

use matrix_rows::Gathered;
use store::{Part, Words};

// The bits of row a of the stored bits that are in the columns, set to those of a row by the rules.
pub fn reset_row(memory: &mut Words, a: usize, columns: [u64; 4], ruled: [u64; 4])
    requires { a < row_count }
    ensures { RowReset memory.old memory.new a (bit_at columns) (bit_at ruled) }
{
    let old = access::row_at(memory, a);
    let row = row_sets::either(
        row_sets::except(old, columns),
        row_sets::both(ruled, columns),
    );
    access::set_row(memory, a, row);
}

// What these rows are read from by the rules, where nothing is gathered yet. Policy q's sets are taken as they are stored.
// Kept: `q < 128` and `SetsStored`. A type of q cannot say the second, which speaks of the memory, and the first has its reason at
// `clearing`'s `take_container`.
fn gather_rows(memory: &Words, q: usize, rows: [u64; 4], gathered: &mut Gathered)
    requires entries_formed { EntriesFormed memory.now × (bit_at gathered.old.standing ≡ stands (model_in memory.now).containers) }
    requires q_bound { (q < 128) × SetsStored memory.now q }
    requires ungathered { Ungathered gathered.old.standing gathered.old }
    ensures { RowsFrom (model_in memory.now) (bit_at rows) gathered.new }
{
    gathered.sets.selected[q] = stored::stored_set(memory, Part::Select, q);
    gathered.sets.allowed[q] = stored::stored_set(memory, Part::Allow, q);
    matrix_rows::gather(memory, Some(q), rows, gathered);
}

// The bits of the matrix in these rows and columns, set by the rules from the entries. Policy q's sets are taken as they are stored.
// Kept: a struct of q and `standing` would be no plainer: one is the caller's, the other read from the memory, and each change would make
// it for one call.
pub fn reset(memory: &mut Words, q: usize, rows: [u64; 4], columns: [u64; 4], standing: [u64; 4])
    requires entries_formed { EntriesFormed memory.old × (bit_at standing ≡ stands (model_in memory.old).containers) }
    requires q_bound { (q < 128) × SetsStored memory.old q }
    ensures { memory.new ≡ image (reset_where (registry_in memory.old) (product (bit_at rows) (bit_at columns))) }
{
    let mut gathered = matrix_rows::ungathered(standing);
    gather_rows(memory, q, rows, &mut gathered);
    // Kept: a test of each number: over `row_members::Members`, as tried, the loop takes 1.15 times as long where most rows are in the set,
    // and its proof 46 lines more.
    for a in 0..store::CONTAINER_SLOTS {
        if row_sets::has(rows, a) {
            let ruled = matrix_rows::row_from(a, &gathered);
            reset_row(memory, a, columns, ruled);
        }
    }
}
