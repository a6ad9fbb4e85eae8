// The entry of an accepted block comes to the lowest free slot of its table, if there is one.
#![tactic(auto)]

ghost use Rattle.std.specs.Prelude.{◌≡◌};
ghost use Rattle.block.specs.Reader.{AcceptedAs};
ghost use Rattle.formed.specs.Registry.{model_in, EntriesFormed};
ghost use Rattle.call_tests.specs.Tests.{said_as};
ghost use Rattle.answers.specs.Answers.{admitted_answer};
ghost use Rattle.free_slots.specs.Entries.{entry_admitted};

use answers::Admitted;
use block::{Reason, Refusal, Sort};
use model::{ContainerSlot, PolicySlot};
use store::Words;

// The entry comes to the lowest free slot.
// Kept: an arm for each table: one function over `Slot` would take a trait with the change, its law and the answer's variant, which is
// longer than the two arms.
pub fn admit_entry(memory: &mut Words, block: &[u8], sort: Sort) -> Result<Admitted, Refusal>
    requires { EntriesFormed memory.old × AcceptedAs (model_in memory.old).settings block.now (said_as sort block.now) }
    ensures { (memory.new, admitted_answer result) ≡ entry_admitted memory.old (said_as sort block.now) }
{
    match sort {
        Sort::Container => {
            let slot = slot_search::free_slot::<ContainerSlot>(memory).ok_or(Reason::TableFull)?;
            container_changes::put_container(memory, slot, block);
            Ok(Admitted::Container(slot))
        }
        Sort::Policy => {
            let slot = slot_search::free_slot::<PolicySlot>(memory).ok_or(Reason::TableFull)?;
            policy_changes::put_policy(memory, slot, block);
            Ok(Admitted::Policy(slot))
        }
    }
}
