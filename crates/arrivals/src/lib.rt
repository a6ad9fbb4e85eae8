// What containers and policies that came touch of the stored bits, set once, when all of them stand.
#![tactic(auto)]

ghost use Rattle.std.specs.Prelude.{◌≡◌, true, ◌<◌};
ghost use Rattle.bitrow.specs.Bit.{bit_at};
ghost use Rattle.model.specs.Table.{stands};
ghost use Rattle.model.specs.Settled.{settled};
ghost use Rattle.store.specs.Layout.{row_count};
ghost use Rattle.formed.specs.Registry.{model_in, registry_in, image, EntriesFormed, well_formed};
ghost use Rattle.matrix_rows.specs.Rows.{Gathers};
ghost use Rattle.arrivals.specs.Anew.{mask_of, set_anew, TouchedBy};

use block::Direction;
use matrix_rows::Gathered;
use store::Words;

// What is set anew: these rows and columns of the matrix, the sets of these policies, and the bits of these containers in every set.
#[derive(Clone, Copy)]
struct Touched {
    rows: [u64; 4],
    columns: [u64; 4],
    policies: [u64; 4],
    containers: [u64; 4],
}

// The bits of row r of the stored bits that are set anew.
fn mask_of(r: usize, touched: Touched) -> [u64; 4]
    requires { r < row_count }
    ensures { bit_at result ≡ mask_of touched r }
{
    if r < store::SELECTED_ROWS {
        if row_sets::has(touched.rows, r) {
            return row_sets::all();
        }
        return touched.columns;
    }
    let q = (r - store::SELECTED_ROWS) / store::SET_STEP;
    if row_sets::has(touched.policies, q) {
        return row_sets::all();
    }
    touched.containers
}

// What containers and policies that came touch: the rows of what the egress policies among them select, the columns of what the
// ingress policies select. Not compiled into its caller, which would then copy the 24 KiB that are gathered.
#[inline(never)]
fn touched_by(
    memory: &Words,
    gathered: &Gathered,
    containers: [u64; 4],
    policies: [u64; 4],
) -> Touched
    requires entries_formed { EntriesFormed memory.now }
    requires gathers { Gathers (model_in memory.now) (stands (model_in memory.now).containers) gathered.now }
    ensures { TouchedBy (model_in memory.now) (bit_at containers) (bit_at policies) result }
{
    let selected = &gathered.sets.selected;
    let sides = reach::sides_of(memory, gathered.standing, selected, Direction::Egress);
    let leaving = rules::union_of(row_sets::both(policies, sides.out), selected);
    let taking = rules::union_of(row_sets::both(policies, sides.back), selected);
    Touched {
        rows: row_sets::either(containers, leaving),
        columns: row_sets::either(containers, taking),
        policies,
        containers,
    }
}

// Row by row, what is touched set by the rules, from what is gathered for all that stand.
fn set_touched(memory: &mut Words, touched: Touched, gathered: &Gathered)
    requires entries_formed { EntriesFormed memory.old }
    requires gathers { Gathers (model_in memory.old) (stands (model_in memory.old).containers) gathered.now }
    ensures { memory.new ≡ image (set_anew touched (registry_in memory.old)) }
{
    for r in 0..store::ROW_COUNT {
        let mask = mask_of(r, touched);
        if !row_tests::is_empty(mask) {
            let ruled = whole::row_of_bits(r, gathered);
            matrix_resets::reset_row(memory, r, mask, ruled);
        }
    }
}

// What containers and policies that came touch, set once by the rules from the entries.
// Kept: that the memory is well formed as a clause: a struct for it is no plainer, for the reasons at `all_sets::fill_by_labels`.
pub fn settle_came(memory: &mut Words, containers: [u64; 4], policies: [u64; 4])
    requires { well_formed memory.old ≡ true }
    ensures { memory.new ≡ image (settled (bit_at containers) (bit_at policies) (registry_in memory.old)) }
{
    if row_tests::is_empty(row_sets::either(containers, policies)) {
        return;
    }
    let standing = stored::standing::<model::ContainerSlot>(memory);
    let mut gathered = matrix_rows::ungathered(standing);
    matrix_rows::gather(memory, None, standing, &mut gathered);
    let touched = touched_by(memory, &gathered, containers, policies);
    set_touched(memory, touched, &gathered);
}
