// What an accepted block says, placed in a slot.
#![tactic(auto)]

ghost use Rattle.std.specs.Prelude.{◌≡◌, ◌<◌, ◌≤◌, length};
ghost use Rattle.std.proofs.Math.Option.{some};
ghost use Rattle.block.specs.Bytes.{byte_at};
ghost use Rattle.block.specs.Entry.{container, policy};
ghost use Rattle.block.specs.Reader.{container_said, policy_said, AcceptedAs};
ghost use Rattle.formed.specs.Registry.{model_in, registry_in, image, EntriesFormed};
ghost use Rattle.formed.specs.Placed.{container_placed, policy_placed};

use store::Words;

// A container's slot is one part.
// Kept: two functions, since the slots have nothing in common but their parts, which `put_part` puts for both.
pub fn place_container(memory: &mut Words, c: usize, block: &[u8])
    requires { EntriesFormed memory.old × (c < 256) × AcceptedAs (model_in memory.old).settings block.now (container (container_said block.now)) }
    ensures { memory.new ≡ image (container_placed (registry_in memory.old) c (some (container_said block.now))) }
{
    let at = store::CONTAINERS + store::CONTAINER_WORDS * c;
    let count = usize::from(block[1]);
    parts::put_part(memory, at, store::CONTAINER_LABELS, block, 4, count);
}

// What an accepted policy's block says before its labels: the number of its direction, and how many labels each part has.
fn policy_head(block: &[u8]) -> (u64, usize, usize)
    requires { 4 ≤ length block.now }
    ensures { (result.0 ≡ byte_at block.now 1) × (result.1 ≡ byte_at block.now 2) × (result.2 ≡ byte_at block.now 3) }
{
    let direction = u64::from(block[1]);
    let select = usize::from(block[2]);
    let allow = usize::from(block[3]);
    (direction, select, allow)
}

// A policy's slot is its direction and two parts.
// Kept: as at `place_container`.
pub fn place_policy(memory: &mut Words, q: usize, block: &[u8])
    requires { EntriesFormed memory.old × (q < 128) × AcceptedAs (model_in memory.old).settings block.now (policy (policy_said block.now)) }
    ensures { memory.new ≡ image (policy_placed (registry_in memory.old) q (some (policy_said block.now))) }
{
    let at = store::POLICIES + store::POLICY_WORDS * q;
    let (direction, select, allow) = policy_head(block);
    memory[at] = direction;
    parts::put_part(
        memory,
        at + store::SELECT,
        store::PART_LABELS,
        block,
        4,
        select,
    );
    parts::put_part(
        memory,
        at + store::ALLOW,
        store::PART_LABELS,
        block,
        4 + 4 * select,
        allow,
    );
}
