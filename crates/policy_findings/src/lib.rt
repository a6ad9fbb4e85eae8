// The findings over policies: kinds 5 to 7.
#![tactic(auto)]

ghost use Rattle.std.specs.Prelude.{◌≡◌, true, List, ℕ, ◌<◌, ◌≤◌};
ghost use Rattle.bitrow.specs.Bit.{bit_at};
ghost use Rattle.bitrow.specs.Set.{meet, has_some};
ghost use Rattle.model.specs.Kinds.{kind_number};
ghost use Rattle.model.specs.Findings.{needless};
ghost use Rattle.block.specs.Reader.{direction_of};
ghost use Rattle.store.specs.Layout.{policy_start, word_at};
ghost use Rattle.formed.specs.Registry.{model_in, EntriesFormed, well_formed};
ghost use Rattle.reach.specs.Sides.{direction_set};
ghost use Rattle.container_findings.specs.Rows.{shown_at, policies_stand};
ghost use Rattle.policy_pairs.specs.Comparisons.{comparison, AtPolicy, ComparedIn};
ghost use Rattle.policy_findings.specs.PolicyView.{PoliciesSeen, SameRows, SlotsWithFindings};
ghost use Rattle.policy_findings.specs.Candidates.{AllFound, Candidates};

use block::Direction;
use model::Kind;
use policy_pairs::Compared;
use row_members::Members;
use selecting::Selecting;
use store::{Part, Words};

// What the rows of findings over policies are worked out from, made once for many rows: the standing policies, those of each
// direction, and the table of those that select each container, which is filled once some rows asked for it.
#[derive(Drop)]
pub struct PolicyView {
    pub standing: [u64; 4],
    pub ingress: [u64; 4],
    pub egress: [u64; 4],
    pub selecting: Selecting,
}

impl PolicyView {
    // Of a memory. The table is not filled yet; `at_once`: it is for the first row that asks.
    pub fn of(memory: &Words, standing: [u64; 4], at_once: bool) -> PolicyView
        requires { EntriesFormed memory.now × (bit_at standing ≡ policies_stand memory.now) }
        ensures seen { PoliciesSeen memory.now result }
        ensures standing { result.standing ≡ standing }
    {
        PolicyView {
            standing,
            ingress: reach::of_direction(memory, Direction::Ingress),
            egress: reach::of_direction(memory, Direction::Egress),
            selecting: Selecting::empty(at_once),
        }
    }
}

// The slots at which a finding over policies can be: those where a policy stands.
pub fn policy_slots(view: &PolicyView) -> [u64; 4]
    ensures { (m : List ℕ) → PoliciesSeen m view.now → SlotsWithFindings m (bit_at result) }
{
    view.standing
}

// The standing policies of the direction of the one at a.
fn of_its_direction(memory: &Words, view: &PolicyView, a: usize) -> [u64; 4]
    requires { AtPolicy memory.now a × PoliciesSeen memory.now view.now }
    ensures { bit_at result ≡ direction_set (model_in memory.now) (direction_of (word_at memory.now (policy_start a))) }
{
    match Direction::from(memory[store::POLICIES + store::POLICY_WORDS * a]) {
        Direction::Ingress => view.ingress,
        Direction::Egress => view.egress,
    }
}

// The policies that may make a finding with one, by the containers that they select: for shadow all that it selects, for conflict some.
// Kept: `ComparedIn` and `PoliciesSeen` beside each other, here and below. Both speak of the memory that is lent, so a struct would hold
// that as a ghost, and each call would show beside it that it is lent the same memory.
fn by_containers(memory: &Words, view: &mut PolicyView, kind: Kind, own: &Compared) -> [u64; 4]
    requires { ComparedIn memory.now own.now × PoliciesSeen memory.now view.old }
    ensures row { AllFound memory.now (kind_number kind) own.now.slot (bit_at result) }
    ensures seen { PoliciesSeen memory.now view.new }
    ensures kept { SameRows view.old view.new }
{
    let standing = view.standing;
    match kind {
        Kind::Shadow => selecting::covering(memory, &mut view.selecting, standing, own.who),
        _ => selecting::sharing(memory, &mut view.selecting, standing, own.who),
    }
}

// The policies that one is compared with: those of its direction that may make a finding with it, and for conflicts above it.
fn candidates(memory: &Words, view: &mut PolicyView, kind: Kind, own: &Compared) -> [u64; 4]
    requires { ComparedIn memory.now own.now × PoliciesSeen memory.now view.old }
    ensures row { Candidates memory.now (kind_number kind) own.now.slot (bit_at result) }
    ensures seen { PoliciesSeen memory.now view.new }
    ensures kept { SameRows view.old view.new }
{
    let alike = of_its_direction(memory, view, own.slot);
    let some = row_sets::both(alike, by_containers(memory, view, kind, own));
    match kind {
        Kind::Shadow => some,
        _ => row_sets::both(some, row_sets::at_least(own.slot + 1)),
    }
}

// 5. Shadow: the policies in whose shadow a policy lies. 6. Conflict: those above it that it conflicts with.
// Kept: `ComparedIn`, which says of the struct `Compared` that a memory has these sets; as its invariant it would need that memory
// as a ghost, and each call would show that it is lent the same.
fn compare_all(memory: &Words, policies: [u64; 4], kind: Kind, own: &Compared) -> [u64; 4]
    requires { ComparedIn memory.now own.now × Candidates memory.now (kind_number kind) own.now.slot (bit_at policies) }
    ensures { bit_at result ≡ meet (bit_at policies) (comparison (kind_number kind) memory.now own.now.slot) }
{
    let mut chosen = row_sets::none();
    for b in Members::of(policies) {
        if policy_pairs::compare(memory, kind, own, b) {
            let next = row_sets::with(chosen, b);
            chosen = next;
        }
    }
    chosen
}

// 7. Irrelevance: 0 where nothing is selected, 1 where something is and nothing is allowed.
fn irrelevance(who: [u64; 4], whom: [u64; 4]) -> [u64; 4]
    ensures { bit_at result ≡ needless (has_some (bit_at who)) (has_some (bit_at whom)) }
{
    if row_tests::is_empty(who) {
        return row_sets::with(row_sets::none(), 0);
    }
    if row_tests::is_empty(whom) {
        return row_sets::with(row_sets::none(), 1);
    }
    row_sets::none()
}

// The findings of a kind over policies at a, as the row of all b.
pub fn policy_row(memory: &Words, view: &mut PolicyView, kind: Kind, a: usize) -> [u64; 4]
    requires { (well_formed memory.now ≡ true) × PoliciesSeen memory.now view.old × (a < 256) × (5 ≤ kind_number kind) }
    ensures row { bit_at result ≡ shown_at memory.now (kind_number kind) a }
    ensures seen { PoliciesSeen memory.now view.new }
    ensures kept { SameRows view.old view.new }
{
    let standing = view.standing;
    if !row_sets::has(standing, a) {
        return row_sets::none();
    }
    let who = stored::stored_set(memory, Part::Select, a);
    let whom = stored::stored_set(memory, Part::Allow, a);
    let idle = row_tests::is_empty(who) | row_tests::is_empty(whom);
    match kind {
        Kind::Irrelevance => irrelevance(who, whom),
        _ if idle => row_sets::none(),
        _ => {
            let own = Compared { slot: a, who, whom };
            let some = candidates(memory, view, kind, &own);
            compare_all(memory, some, kind, &own)
        }
    }
}

// The findings at a of the kind of this number, as the row of all b; above 7, where there is no kind, there are none.
// Kept: `number: usize`: the promise is of any number (a rule), also of one that is no kind; of a `Kind` it is `policy_row`.
pub fn policy_row_numbered(
    memory: &Words,
    view: &mut PolicyView,
    number: usize,
    a: usize,
) -> [u64; 4]
    requires { (well_formed memory.now ≡ true) × PoliciesSeen memory.now view.old × (a < 256) × (5 ≤ number) }
    ensures row { bit_at result ≡ shown_at memory.now number a }
    ensures seen { PoliciesSeen memory.now view.new }
    ensures kept { SameRows view.old view.new }
{
    match Kind::numbered(number) {
        Some(kind) => policy_row(memory, view, kind, a),
        None => row_sets::none(),
    }
}
