// A policy put at its slot or taken from it, and the bits of the matrix that it touches.
#![tactic(auto)]

ghost use Rattle.std.specs.Prelude.{◌≡◌, true, ◌<◌};
ghost use Rattle.std.proofs.Math.Option.{none, some};
ghost use Rattle.bitrow.specs.Bit.{bit_at};
ghost use Rattle.block.specs.Entry.{policy};
ghost use Rattle.block.specs.Reader.{policy_said, AcceptedAs};
ghost use Rattle.model.specs.Table.{stands};
ghost use Rattle.model.specs.Registry.{change_policy};
ghost use Rattle.formed.specs.Words.{policy_at};
ghost use Rattle.formed.specs.Registry.{model_in, registry_in, image, EntriesFormed};
ghost use Rattle.policy_sets.specs.PolicySets.{SetsStored};
ghost use Rattle.policy_changes.specs.Region.{Touches, TouchedReset};

use block::Direction;
use model::PolicySlot;
use store::Words;

// Bits of the matrix: those in these rows and columns.
#[derive(Clone, Copy)]
pub struct Region {
    pub rows: [u64; 4],
    pub columns: [u64; 4],
}

// What a policy of this direction touches that selects these of the standing containers.
fn region_of(direction: Direction, selected: [u64; 4], standing: [u64; 4]) -> Region
    ensures { Touches direction (bit_at selected) (bit_at standing) result }
{
    match direction {
        Direction::Ingress => Region {
            rows: standing,
            columns: selected,
        },
        Direction::Egress => Region {
            rows: selected,
            columns: standing,
        },
    }
}

// The bits of the matrix that such a policy touches set by the rules. Policy q's sets are taken as they are stored.
fn reset_touched(
    memory: &mut Words,
    q: usize,
    direction: Direction,
    selected: [u64; 4],
    standing: [u64; 4],
)
    requires entries_formed { EntriesFormed memory.old × (bit_at standing ≡ stands (model_in memory.old).containers) }
    requires q_bound { (q < 128) × SetsStored memory.old q }
    ensures { TouchedReset memory.old memory.new direction (bit_at selected) }
{
    let region = region_of(direction, selected, standing);
    matrix_resets::reset(memory, q, region.rows, region.columns, standing);
}

// The policy of an accepted block comes to a slot.
pub fn put_policy(memory: &mut Words, slot: PolicySlot, block: &[u8])
    requires { EntriesFormed memory.old × (slot.0 < 128) × AcceptedAs (model_in memory.old).settings block.now (policy (policy_said block.now)) }
    ensures { memory.new ≡ image (change_policy (registry_in memory.old) slot.0 (policy_said block.now) (some (policy_said block.now))) }
{
    let q = slot.0;
    let standing = stored::standing::<model::ContainerSlot>(memory);
    placing::place_policy(memory, q, block);
    let direction = Direction::from(memory[store::POLICIES + store::POLICY_WORDS * q]);
    let selected = policy_sets::settle(memory, q, standing);
    if row_tests::is_empty(selected) {
        return;
    }
    reset_touched(memory, q, direction, selected, standing);
}

// The policy at a slot goes.
pub fn take_policy(memory: &mut Words, slot: PolicySlot)
    requires { EntriesFormed memory.old × (slot.0 < 128) × (stands (model_in memory.old).policies slot.0 ≡ true) }
    ensures { memory.new ≡ image (change_policy (registry_in memory.old) slot.0 (policy_at memory.old slot.0) none) }
{
    let q = slot.0;
    let at = store::POLICIES + store::POLICY_WORDS * q;
    let direction = Direction::from(memory[at]);
    let standing = stored::standing::<model::ContainerSlot>(memory);
    let selected = policy_sets::matched(memory, store::Part::Select, q, standing);
    access::clear_slot(memory, at, store::POLICY_WORDS);
    policy_sets::settle(memory, q, standing);
    if row_tests::is_empty(selected) {
        return;
    }
    reset_touched(memory, q, direction, selected, standing);
}
