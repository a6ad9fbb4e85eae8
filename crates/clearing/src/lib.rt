// What clears: a container that goes, and the registry that an open leaves.
#![tactic(auto)]

ghost use Rattle.std.specs.Prelude.{◌≡◌, ◌<◌};
ghost use Rattle.std.proofs.Math.Option.{none};
ghost use Rattle.block.specs.Reading.{settings_of};
ghost use Rattle.model.specs.Registry.{change_container, opened};
ghost use Rattle.store.specs.Layout.{settings_size};
ghost use Rattle.store.specs.Memory.{slot_set};
ghost use Rattle.formed.specs.Words.{settings_word};
ghost use Rattle.formed.specs.Registry.{registry_in, image, EntriesFormed};

use model::ContainerSlot;
use store::Words;

// The container at a slot removed: by the rules every bit of a free slot is clear.
// Kept: `slot.0 < 256`, and `c < 256` below it. A slot that carries its bound would be no plainer: calls over C make slots of any number,
// and test them, and loops over a table would make one at each index.
pub fn take_container(memory: &mut Words, slot: ContainerSlot)
    requires { EntriesFormed memory.old × (slot.0 < 256) }
    ensures { memory.new ≡ image (change_container (registry_in memory.old) slot.0 none) }
{
    let c = slot.0;
    let at = store::CONTAINERS + store::CONTAINER_WORDS * c;
    access::clear_slot(memory, at, store::CONTAINER_WORDS);
    let clear = row_sets::none();
    container_bits::store_bits(memory, c, clear, clear, clear, clear);
}

// The words of settings.
fn set_settings(memory: &mut Words, settings: block::Settings)
    ensures { memory.new ≡ slot_set memory.old 0 settings_size (settings_word (settings_of settings)) }
{
    memory[0] = settings.user_key;
    memory[1] = settings.system_key;
    memory[2] = settings.system_value;
}

// An accepted open: no entry and no bit, under the settings.
pub fn start(memory: &mut Words, settings: block::Settings)
    ensures { memory.new ≡ image (opened (settings_of settings)) }
{
    access::clear(memory);
    set_settings(memory, settings);
}
