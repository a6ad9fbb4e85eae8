// The test of the words before the rows: settings, and each slot of a container and of a policy.
#![tactic(auto)]

ghost use Rattle.std.specs.Prelude.{◌≡◌, ◌<◌, Bool, List, ℕ};
ghost use Rattle.block.specs.Written.{valid_settings};
ghost use Rattle.formed.specs.Words.{settings_in};
ghost use Rattle.formed.specs.Tests.{between, container_ok, policy_ok};

use entries::Slot;
use model::{ContainerSlot, PolicySlot};
use store::Words;

pub fn settings_ok(memory: &Words) -> bool
    ensures { result ≡ valid_settings (settings_in memory.now) }
{
    let user = block_bytes::within(1, 64, memory[0]);
    let key = memory[1];
    let value = memory[2];
    if key == 0 {
        return user & ((key <= 64) & (value == 0));
    }
    let system = block_bytes::within(1, 65535, value);
    user & ((key <= 64) & system)
}

// A slot whose words can be tested.
pub trait Tested: Slot {
    ghost ok: { List ℕ → ℕ → Bool };

    // Whether the words of the slot are zero, or those of an entry.
    fn ok(self, memory: &Words) -> bool
        requires { Self.index self < Self.SLOTS }
        ensures { result ≡ ok memory.now (Self.index self) };
}

impl Tested for ContainerSlot {
    ghost ok = { container_ok };

    fn ok(self, memory: &Words) -> bool {
        let at = store::CONTAINERS + store::CONTAINER_WORDS * self.0;
        let slot = &memory[at..at + store::CONTAINER_WORDS];
        if slot[0] == 0 {
            return part_tests::zeros(slot);
        }
        part_tests::part_ok(slot)
    }
}

impl Tested for PolicySlot {
    ghost ok = { policy_ok };

    fn ok(self, memory: &Words) -> bool {
        let at = store::POLICIES + store::POLICY_WORDS * self.0;
        let direction = memory[at];
        if direction == 0 {
            return part_tests::zeros(&memory[at..at + store::POLICY_WORDS]);
        }
        if 2 < direction {
            return false;
        }
        if !part_tests::part_ok(&memory[at + store::SELECT..at + store::ALLOW]) {
            return false;
        }
        part_tests::part_ok(&memory[at + store::ALLOW..at + store::POLICY_WORDS])
    }
}

pub fn slots_ok<S: Tested>(memory: &Words) -> bool
    ensures { result ≡ between (S.ok memory.now) 0 S.SLOTS }
{
    (0..S::SLOTS).all(
        |i|
            requires { i < S.SLOTS }
        { S::at(i).ok(memory) },
    )
}
