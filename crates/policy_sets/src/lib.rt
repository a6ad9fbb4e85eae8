// A policy's two sets: what it selects and allows of the standing containers, by the entries, and both of them stored.
#![tactic(auto)]

ghost use Rattle.std.specs.Prelude.{◌≡◌, ◌<◌};
ghost use Rattle.bitrow.specs.Bit.{bit_at};
ghost use Rattle.model.specs.Table.{stands};
ghost use Rattle.model.specs.Model.{selected_bit, computed_bits};
ghost use Rattle.formed.specs.Registry.{model_in, set_in, registry_in, image, EntriesFormed};
ghost use Rattle.policy_sets.specs.PolicySets.{settled};

use store::{Part, Words};

// The standing containers that a part of policy q matches: those that the policy selects, or those that it allows.
pub fn matched(memory: &Words, part: Part, q: usize, standing: [u64; 4]) -> [u64; 4]
    requires { EntriesFormed memory.now × (q < 128) × (bit_at standing ≡ stands (model_in memory.now).containers) }
    ensures { bit_at result ≡ set_in (computed_bits (model_in memory.now)) part q }
{
    sets::part_row(memory, q, part.offset(), standing)
}

// The two sets of policy q, by the entries as they stand, stored. Gives what it selects.
pub fn settle(memory: &mut Words, q: usize, standing: [u64; 4]) -> [u64; 4]
    requires { EntriesFormed memory.old × (q < 128) × (bit_at standing ≡ stands (model_in memory.old).containers) }
    ensures { (memory.new ≡ image (settled (registry_in memory.old) q)) × (bit_at result ≡ selected_bit (model_in memory.old) q) }
{
    let selected = matched(memory, Part::Select, q, standing);
    let allowed = matched(memory, Part::Allow, q, standing);
    access::set_row(memory, Part::Select.band().row(q), selected);
    access::set_row(memory, Part::Allow.band().row(q), allowed);
    selected
}
