// Rows of the matrix, many at once: from what was gathered policy by policy.
#![tactic(auto)]

ghost use Rattle.std.specs.Prelude.{◌≡◌, ◌<◌};
ghost use Rattle.bitrow.specs.Bit.{bit_at};
ghost use Rattle.model.specs.Table.{stands};
ghost use Rattle.model.specs.Model.{container_slots};
ghost use Rattle.formed.specs.Registry.{model_in, EntriesFormed};
ghost use Rattle.sets.specs.Sets.{bits, Empty, KnownSets};
ghost use Rattle.matrix_rows.specs.Rows.{meet_if, Ungathered, Gathers, RowFrom};

use block::Direction;
use sets::PolicySets;
use store::Words;

// What rows of the matrix are read from: each policy's two sets, the standing containers, those that an egress policy selects, those
// that an ingress policy selects, and for each container in `outs` what the egress policies that select it allow, in `backs` what the
// ingress policies that allow it select.
// Of its 24 KiB none is copied: it is made where it is kept, and lent.
#[derive(Clone, Copy)]
pub struct Gathered {
    pub sets: PolicySets,
    pub standing: [u64; 4],
    pub bound: [u64; 4],
    pub chosen: [u64; 4],
    pub outs: [[u64; 4]; 256],
    pub backs: [[u64; 4]; 256],
}

// Nothing gathered yet for these standing containers.
pub fn ungathered(standing: [u64; 4]) -> Gathered
    ensures { Ungathered standing result }
{
    Gathered {
        sets: PolicySets {
            selected: [[0; 4]; 128],
            allowed: [[0; 4]; 128],
        },
        standing,
        bound: [0; 4],
        chosen: [0; 4],
        outs: [[0; 4]; 256],
        backs: [[0; 4]; 256],
    }
}

// What the rows of some containers are read from is gathered, where nothing is yet but the sets of the policy `known`, if any.
pub fn gather(memory: &Words, known: Option<usize>, some: [u64; 4], gathered: &mut Gathered)
    requires entries_formed { EntriesFormed memory.now × (bit_at gathered.old.standing ≡ stands (model_in memory.now).containers) }
    requires known_sets { KnownSets (model_in memory.now) known gathered.old.sets }
    requires empty { Empty container_slots gathered.old.outs × Empty container_slots gathered.old.backs }
    ensures { Gathers (model_in memory.now) (bit_at some) gathered.new }
{
    let standing = gathered.standing;
    all_sets::fill_sets(memory, standing, known, &mut gathered.sets);
    let sets = &gathered.sets;
    let sides = reach::sides_of(memory, standing, &sets.selected, Direction::Egress);
    joins::join_all(
        &mut gathered.outs,
        sides.out,
        &sets.selected,
        &sets.allowed,
        some,
    );
    joins::join_all(
        &mut gathered.backs,
        sides.back,
        &sets.allowed,
        &sets.selected,
        some,
    );
    let bound = rules::union_of(sides.out, &sets.selected);
    let chosen = sides.chosen;
    gathered.bound = bound;
    gathered.chosen = chosen;
}

// Those of the standing containers that a may have to do with: all, or where a is bound by a policy its row.
fn outward_from(a: usize, gathered: &Gathered) -> [u64; 4]
    requires { a < 256 }
    ensures { bit_at result ≡ meet_if (bit_at gathered.now.bound a) (bit_at gathered.now.standing) (bits gathered.now.outs a) }
{
    if bitrow::bit_of(gathered.bound[a / 64], a) {
        return row_sets::both(gathered.standing, gathered.outs[a]);
    }
    gathered.standing
}

// Row a of the matrix by the rules, a itself in it, where a is one of the containers that were gathered for, or a free slot.
// Compiled into its callers: each of them makes many rows.
#[inline(always)]
pub fn row_from(a: usize, gathered: &Gathered) -> [u64; 4]
    requires { a < 256 }
    ensures { RowFrom gathered.now a result }
{
    if !bitrow::bit_of(gathered.standing[a / 64], a) {
        return row_sets::none();
    }
    let there = outward_from(a, gathered);
    let others = row_sets::either(
        row_sets::except(there, gathered.chosen),
        row_sets::both(there, gathered.backs[a]),
    );
    row_sets::with(others, a)
}
