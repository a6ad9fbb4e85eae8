// The test of the rows, and of a whole memory: whether it is well formed.
#![tactic(auto)]

ghost use Rattle.std.specs.Prelude.{◌≡◌};
ghost use Rattle.bitrow.specs.Bit.{bit_at};
ghost use Rattle.formed.specs.Registry.{well_formed};
ghost use Rattle.formed.specs.Tests.{matrix_ok, sets_ok};

use model::{ContainerSlot, PolicySlot};
use store::Words;
use word_tests::Joined;

// Kept: a container has one row and a policy two, so one function for both would take the number of rows and divide by it.
fn matrix_ok(memory: &Words, standing: [u64; 4]) -> bool
    ensures { result ≡ matrix_ok memory.now (bit_at standing) }
{
    let mut rows = Joined::none();
    for a in 0..store::CONTAINER_SLOTS {
        let owner = memory[store::CONTAINERS + store::CONTAINER_WORDS * a];
        let next = rows.with(memory, a, owner);
        rows = next;
    }
    rows.ok(standing)
}

// Kept: two rows for each policy, where a container has one.
fn sets_ok(memory: &Words, standing: [u64; 4]) -> bool
    ensures { result ≡ sets_ok memory.now (bit_at standing) }
{
    let mut rows = Joined::none();
    for q in 0..store::POLICY_SLOTS {
        let owner = memory[store::POLICIES + store::POLICY_WORDS * q];
        let selected = rows.with(memory, store::SELECTED_ROWS + store::SET_STEP * q, owner);
        let both = selected.with(memory, store::ALLOWED_ROWS + store::SET_STEP * q, owner);
        rows = both;
    }
    rows.ok(standing)
}

// Whether a memory of our size is well formed.
fn formed(memory: &Words) -> bool
    ensures { result ≡ well_formed memory.now }
{
    if !entry_tests::settings_ok(memory) {
        return false;
    }
    if !entry_tests::slots_ok::<ContainerSlot>(memory) {
        return false;
    }
    if !entry_tests::slots_ok::<PolicySlot>(memory) {
        return false;
    }
    let standing = stored::standing::<ContainerSlot>(memory);
    if !matrix_ok(memory, standing) {
        return false;
    }
    sets_ok(memory, standing)
}

// Whether a memory is well formed: the test of refusals 1 and 2.
pub fn well_formed(memory: &[u64]) -> bool
    ensures { result ≡ well_formed memory.now }
{
    match memory.as_array() {
        Some(memory) => formed(memory),
        None => false,
    }
}
