// A container that comes: its words, and its bits by the rules.
#![tactic(auto)]

ghost use Rattle.std.specs.Prelude.{◌≡◌, ◌<◌};
ghost use Rattle.std.proofs.Math.Option.{some};
ghost use Rattle.block.specs.Entry.{container};
ghost use Rattle.block.specs.Reader.{container_said, AcceptedAs};
ghost use Rattle.model.specs.Registry.{change_container};
ghost use Rattle.formed.specs.Registry.{model_in, registry_in, image, EntriesFormed};
ghost use Rattle.container_changes.specs.OneContainer.{refreshed};

use model::ContainerSlot;
use sets::PolicySets;
use store::Words;

// Container c's bits set by the rules from the entries as they stand.
fn refresh(memory: &mut Words, c: usize)
    requires { EntriesFormed memory.old × (c < 256) }
    ensures { memory.new ≡ image (refreshed (registry_in memory.old) c) }
{
    let standing = stored::standing::<ContainerSlot>(memory);
    let mut sets = PolicySets {
        selected: [[0; 4]; 128],
        allowed: [[0; 4]; 128],
    };
    all_sets::fill_sets(memory, standing, None, &mut sets);
    let cross = reach::cross_of(memory, standing, &sets, c);
    let selecting = holders::holding(&sets.selected, c);
    let allowing = holders::holding(&sets.allowed, c);
    container_bits::store_bits(memory, c, cross.row, cross.column, selecting, allowing);
}

// The container of an accepted block comes to a slot.
// Kept: a pair of the slot and the block would be made for this call alone, and taken apart by it; and that the block is accepted as a
// clause, since it is under the settings of the memory that is lent.
pub fn put_container(memory: &mut Words, slot: ContainerSlot, block: &[u8])
    requires { EntriesFormed memory.old × (slot.0 < 256) × AcceptedAs (model_in memory.old).settings block.now (container (container_said block.now)) }
    ensures { memory.new ≡ image (change_container (registry_in memory.old) slot.0 (some (container_said block.now))) }
{
    let c = slot.0;
    placing::place_container(memory, c, block);
    refresh(memory, c);
}
