// Two policies compared: shadow and conflict.
#![tactic(auto)]

ghost use Rattle.std.specs.Prelude.{◌≡◌};
ghost use Rattle.model.specs.Kinds.{kind_number};
ghost use Rattle.model.specs.Findings.{one_direction, shadow, conflict};
ghost use Rattle.formed.specs.Registry.{model_in, bits_in};
ghost use Rattle.policy_pairs.specs.Comparisons.{comparison, AtPolicy, ComparedIn};

use model::Kind;
use store::{Part, Words};

// A policy that others are compared with: its slot, whom it selects and whom it allows.
#[derive(Clone, Copy)]
pub struct Compared {
    pub slot: usize,
    pub who: [u64; 4],
    pub whom: [u64; 4],
}

// Whether two policies are of one direction.
fn one_direction(memory: &Words, a: usize, b: usize) -> bool
    requires { AtPolicy memory.now a × AtPolicy memory.now b }
    ensures { result ≡ one_direction (model_in memory.now) a b }
{
    memory[store::POLICIES + store::POLICY_WORDS * b]
        == memory[store::POLICIES + store::POLICY_WORDS * a]
}

// Whether a policy lies in b's shadow. Neither of its sets is empty, so its connections lie among b's if its sets are parts of b's.
// Kept: `own` beside `b`; the one is made once, and compared with all others in turn.
fn shadow_at(memory: &Words, own: &Compared, b: usize) -> bool
    requires { ComparedIn memory.now own.now × AtPolicy memory.now b }
    ensures { result ≡ shadow (model_in memory.now) (bits_in memory.now) own.now.slot b }
{
    let one_way = one_direction(memory, own.slot, b);
    let who = stored::stored_set(memory, Part::Select, b);
    let whom = stored::stored_set(memory, Part::Allow, b);
    if !row_tests::part_of(own.who, who) {
        return false;
    }
    let under = row_tests::part_of(own.whom, whom);
    let over = row_tests::part_of(who, own.who) & row_tests::part_of(whom, own.whom);
    (own.slot != b) & (one_way & (under & (!over | (b < own.slot))))
}

// Whether a policy conflicts with b, above it. It allows something.
fn conflict_at(memory: &Words, own: &Compared, b: usize) -> bool
    requires { ComparedIn memory.now own.now × AtPolicy memory.now b }
    ensures { result ≡ conflict (model_in memory.now) (bits_in memory.now) own.now.slot b }
{
    let one_way = one_direction(memory, own.slot, b);
    let who = stored::stored_set(memory, Part::Select, b);
    let whom = stored::stored_set(memory, Part::Allow, b);
    let apart = row_tests::is_empty(row_sets::both(own.who, who));
    let idle = row_tests::is_empty(whom);
    let disjoint = row_tests::is_empty(row_sets::both(own.whom, whom));
    (own.slot < b) & (one_way & (!apart & (!idle & disjoint)))
}

// Whether a policy and b make a finding of shadow, or else of conflict. What can be told without their sets is told first.
pub fn compare(memory: &Words, kind: Kind, own: &Compared, b: usize) -> bool
    requires { ComparedIn memory.now own.now × AtPolicy memory.now b }
    ensures { result ≡ comparison (kind_number kind) memory.now own.now.slot b }
{
    if !one_direction(memory, own.slot, b) {
        return false;
    }
    match kind {
        Kind::Shadow => shadow_at(memory, own, b),
        _ if b <= own.slot => false,
        _ => conflict_at(memory, own, b),
    }
}

// Whether a policy and b make a finding of kind 5, or else of 6.
// Kept: `number: usize`: the promise is of any number (a rule), also of one that is no kind; of a `Kind` it is `compare`.
pub fn compare_numbered(memory: &Words, number: usize, own: &Compared, b: usize) -> bool
    requires { ComparedIn memory.now own.now × AtPolicy memory.now b }
    ensures { result ≡ comparison number memory.now own.now.slot b }
{
    if number == 5 {
        compare(memory, Kind::Shadow, own, b)
    } else {
        compare(memory, Kind::Conflict, own, b)
    }
}
