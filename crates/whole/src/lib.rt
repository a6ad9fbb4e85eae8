// The whole registry by the rules: a row of the stored bits, and the rebuild that sets every one.
#![tactic(auto)]

ghost use Rattle.std.specs.Prelude.{◌≡◌, ◌<◌};
ghost use Rattle.model.specs.Registry.{rebuilt};
ghost use Rattle.store.specs.Layout.{row_count};
ghost use Rattle.formed.specs.Registry.{registry_in, image, EntriesFormed};
ghost use Rattle.whole.specs.StoredRows.{StoredFrom};

use matrix_rows::Gathered;
use store::Words;

// Row r of the stored bits by the rules, from what is gathered for all that stand: a row of the matrix, then by turns what a policy
// selects and what it allows.
pub fn row_of_bits(r: usize, gathered: &Gathered) -> [u64; 4]
    requires { r < row_count }
    ensures { StoredFrom gathered.now r result }
{
    if r < store::SELECTED_ROWS {
        return matrix_rows::row_from(r, gathered);
    }
    let q = (r - store::SELECTED_ROWS) / store::SET_STEP;
    if r % store::SET_STEP == 0 {
        return gathered.sets.selected[q];
    }
    gathered.sets.allowed[q]
}

// "Rebuild sets every kept bit by the rules."
// Kept: another name would be no plainer: it is the work of the call of this name in `upkeep`, which tests its memory first.
pub fn rebuild(memory: &mut Words)
    requires { EntriesFormed memory.old }
    ensures { memory.new ≡ image (rebuilt (registry_in memory.old)) }
{
    let standing = stored::standing::<model::ContainerSlot>(memory);
    let mut gathered = matrix_rows::ungathered(standing);
    matrix_rows::gather(memory, None, standing, &mut gathered);
    for r in 0..store::ROW_COUNT {
        let row = row_of_bits(r, &gathered);
        access::set_row(memory, r, row);
    }
}
