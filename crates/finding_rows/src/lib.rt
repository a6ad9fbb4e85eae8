// The findings of one kind at a slot.
#![tactic(auto)]

ghost use Rattle.std.specs.Prelude.{◌≡◌, true, ◌<◌};
ghost use Rattle.bitrow.specs.Bit.{bit_at};
ghost use Rattle.model.specs.Kinds.{kind_number};
ghost use Rattle.formed.specs.Registry.{well_formed, EntriesFormed};
ghost use Rattle.container_findings.specs.Rows.{shown_at};
ghost use Rattle.finding_rows.specs.View.{ViewOf};
ghost use Rattle.finding_rows.specs.Slots.{SlotsOf};

use container_findings::ContainerView;
use model::Kind;
use policy_findings::PolicyView;
use store::Words;

// What findings are worked out from beside the memory: made once for a listing, and lent for each row, which may fill what it is the first
// to ask for.
// Of its 8.7 KiB none is copied.
#[derive(Drop)]
pub struct View {
    pub containers: ContainerView,
    pub policies: PolicyView,
}

impl View {
    // `many`: what is told of all containers at once is told now. `at_once`: the users' words are told for the first row with more
    // than a few containers, the table of policies is filled for the first that asks it; else both are put off until so many have asked
    // that it adds little to what they took.
    pub fn of(memory: &Words, many: bool, at_once: bool) -> View
        requires { EntriesFormed memory.now }
        ensures { ViewOf memory.now result }
    {
        let containers = stored::standing::<model::ContainerSlot>(memory);
        let policies = stored::standing::<model::PolicySlot>(memory);
        View {
            containers: ContainerView::of(memory, containers, many, at_once),
            policies: PolicyView::of(memory, policies, at_once),
        }
    }

    // For each kind's number the slots at which there can be a finding of it; none for 0, which is no kind. The table is lent: one that is
    // answered is copied by `memcpy`, which who links the archive would have to bring.
    pub fn slots(&self, memory: &Words, slots: &mut [[u64; 4]; 8])
        requires { EntriesFormed memory.now × ViewOf memory.now self.now }
        ensures { SlotsOf memory.now slots.new }
    {
        let containers = &self.containers;
        let policies = policy_findings::policy_slots(&self.policies);
        slots[0] = [0; 4];
        slots[1] = container_findings::container_slots(memory, containers, Kind::AllReachable);
        slots[2] = container_findings::container_slots(memory, containers, Kind::AllIsolated);
        slots[3] = container_findings::container_slots(memory, containers, Kind::UserCross);
        slots[4] = container_findings::container_slots(memory, containers, Kind::SystemIsolation);
        slots[5] = policies;
        slots[6] = policies;
        slots[7] = policies;
    }
}

// The findings of one kind at a, as the row of all b.
pub fn finding_row(memory: &Words, view: &mut View, kind: Kind, a: usize) -> [u64; 4]
    requires { (well_formed memory.now ≡ true) × ViewOf memory.now view.old × (a < 256) }
    ensures row { bit_at result ≡ shown_at memory.now (kind_number kind) a }
    ensures view { ViewOf memory.now view.new }
{
    match kind {
        Kind::AllReachable | Kind::AllIsolated | Kind::UserCross | Kind::SystemIsolation => {
            container_findings::container_row(memory, &mut view.containers, kind, a)
        }
        Kind::Shadow | Kind::Conflict | Kind::Irrelevance => {
            policy_findings::policy_row(memory, &mut view.policies, kind, a)
        }
    }
}

// The findings at a of the kind of this number, as the row of all b; of a number that is no kind there are none.
// Kept: `number: usize`: the promise is of any number (a rule), also of one that is no kind; of a `Kind` it is `finding_row`.
pub fn finding_row_numbered(memory: &Words, view: &mut View, number: usize, a: usize) -> [u64; 4]
    requires { (well_formed memory.now ≡ true) × ViewOf memory.now view.old × (a < 256) }
    ensures row { bit_at result ≡ shown_at memory.now number a }
    ensures view { ViewOf memory.now view.new }
{
    if number < 5 {
        container_findings::container_row_numbered(memory, &mut view.containers, number, a)
    } else {
        policy_findings::policy_row_numbered(memory, &mut view.policies, number, a)
    }
}
