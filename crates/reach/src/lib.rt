// What a row and a column of the matrix are worked out from by the entries of a memory, and a container's row and column.
#![tactic(auto)]

ghost use Rattle.std.specs.Prelude.{◌≡◌, ◌<◌};
ghost use Rattle.bitrow.specs.Bit.{bit_at};
ghost use Rattle.model.specs.Table.{stands};
ghost use Rattle.model.specs.Model.{matrix_bit};
ghost use Rattle.formed.specs.Registry.{model_in, EntriesFormed};
ghost use Rattle.sets.specs.Sets.{SetsOf};
ghost use Rattle.reach.specs.Sides.{direction_set, opposite, SidesOf, Exchanged};

use block::Direction;
use rules::Sides;
use sets::PolicySets;
use store::Words;

// The standing policies of a direction.
pub fn of_direction(memory: &Words, direction: Direction) -> [u64; 4]
    requires { EntriesFormed memory.now }
    ensures { bit_at result ≡ direction_set (model_in memory.now) direction }
{
    let number = u64::from(direction);
    [
        stored::slots_with(memory, store::POLICIES, store::POLICY_WORDS, number),
        stored::slots_with(memory, store::POLICIES_64, store::POLICY_WORDS, number),
        0,
        0,
    ]
}

// The other direction.
fn opposite(direction: Direction) -> Direction
    ensures { result ≡ opposite direction }
{
    match direction {
        Direction::Ingress => Direction::Egress,
        Direction::Egress => Direction::Ingress,
    }
}

// What a row of the matrix is worked out from for egress, and a column for ingress, where `selected` has what each policy selects.
pub fn sides_of(
    memory: &Words,
    standing: [u64; 4],
    selected: &[[u64; 4]; 128],
    direction: Direction,
) -> Sides
    requires { EntriesFormed memory.now × (bit_at standing ≡ stands (model_in memory.now).containers) }
    ensures { SidesOf (model_in memory.now) direction selected.now result }
{
    let out = of_direction(memory, direction);
    let back = of_direction(memory, opposite(direction));
    let chosen = rules::union_of(back, selected);
    Sides {
        standing,
        out,
        back,
        chosen,
    }
}

// The same for the other direction.
fn exchanged(sides: Sides, selected: &[[u64; 4]; 128]) -> Sides
    ensures { Exchanged sides selected.now result }
{
    let standing = sides.standing;
    let out = sides.out;
    let back = sides.back;
    let chosen = rules::union_of(out, selected);
    Sides {
        standing,
        out: back,
        back: out,
        chosen,
    }
}

// A container's row and column of the matrix.
#[derive(Clone, Copy)]
pub struct Cross {
    pub row: [u64; 4],
    pub column: [u64; 4],
}

// Both by the rules, from each policy's two sets.
pub fn cross_of(memory: &Words, standing: [u64; 4], sets: &PolicySets, c: usize) -> Cross
    requires entries_formed { EntriesFormed memory.now × (bit_at standing ≡ stands (model_in memory.now).containers) }
    requires c_bound { (c < 256) × SetsOf (model_in memory.now) sets.now }
    ensures { (bit_at result.row ≡ matrix_bit (model_in memory.now) c) × (bit_at result.column ≡ (λ a. matrix_bit (model_in memory.now) a c)) }
{
    let across = sides_of(memory, standing, &sets.selected, Direction::Egress);
    let row = rules::row_by_rules(c, across, sets);
    let down = exchanged(across, &sets.selected);
    let column = rules::row_by_rules(c, down, sets);
    Cross { row, column }
}
