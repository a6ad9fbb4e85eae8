// The step of a batch that takes one block: its entry is placed, and no stored bit changes. Within a batch slots only fill, so the search
// for a free slot begins where the last one of its table ended.
#![tactic(auto)]

ghost use Rattle.std.specs.Prelude.{◌≡◌, ◌≤◌, ◌<◌};
ghost use Rattle.std.proofs.Math.Option.{some};
ghost use Rattle.formed.specs.Registry.{model_in, EntriesFormed};
ghost use Rattle.answers.specs.Answers.{admitted_answer};
ghost use Rattle.batch_blocks.specs.Blocks.{block_placed, slot_of, position_of, NoneCame, ArrivedWith, CameWith, FreeFrom};

use answers::Admitted;
use block::{Reason, Refusal, Sort};
use model::{ContainerSlot, PolicySlot};
use store::Words;

// What came to a table in a batch: the slots that entries came to, and the slot from which on the next search begins.
#[derive(Clone, Copy)]
pub struct Arrived {
    pub slots: [u64; 4],
    pub from: usize,
}

// What came in a batch, table by table.
#[derive(Clone, Copy)]
pub struct Came {
    pub containers: Arrived,
    pub policies: Arrived,
}

impl Arrived {
    // One slot more, the lowest that was free.
    fn with(self, slot: usize) -> Arrived
        requires { slot < 256 }
        ensures { ArrivedWith self (some slot) result }
    {
        Arrived {
            slots: row_sets::with(self.slots, slot),
            from: slot + 1,
        }
    }
}

// Before the first block.
pub fn none_came() -> Came
    ensures { NoneCame result }
{
    let none = Arrived {
        slots: row_sets::none(),
        from: 0,
    };
    Came {
        containers: none,
        policies: none,
    }
}

// The entry of a block comes to the lowest free slot of its table; no stored bit changes. The block may be of any bytes.
// Kept: an arm for each table, as at `free_slots::admit_entry`.
pub fn place_block(memory: &mut Words, block: &[u8], came: Came) -> Result<Admitted, Refusal>
    requires { EntriesFormed memory.old × FreeFrom (model_in memory.old) came }
    ensures result_after { (memory.new, admitted_answer result) ≡ block_placed memory.old block.now }
    ensures result_bound { (slot_of result < 256) × (position_of result ≤ 510) }
{
    let sort = call_tests::test_block(memory, block)?;
    match sort {
        Sort::Container => {
            let free = slot_search::free_from::<ContainerSlot>(memory, came.containers.from);
            let slot = free.ok_or(Reason::TableFull)?;
            placing::place_container(memory, slot.0, block);
            Ok(Admitted::Container(slot))
        }
        Sort::Policy => {
            let free = slot_search::free_from::<PolicySlot>(memory, came.policies.from);
            let slot = free.ok_or(Reason::TableFull)?;
            placing::place_policy(memory, slot.0, block);
            Ok(Admitted::Policy(slot))
        }
    }
}

// One answer more.
pub fn came_with(came: Came, answer: Result<Admitted, Refusal>) -> Came
    requires { slot_of answer < 256 }
    ensures { CameWith came answer result }
{
    let Ok(admitted) = answer else {
        return came;
    };
    match admitted {
        Admitted::Container(c) => Came {
            containers: came.containers.with(c.0),
            policies: came.policies,
        },
        Admitted::Policy(q) => Came {
            containers: came.containers,
            policies: came.policies.with(q.0),
        },
    }
}
