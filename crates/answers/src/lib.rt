// What an admission and the counts give where they are accepted; what each call answers, its reason or its whole refusal where it is
// refused, is defined in specs/.
#![tactic(auto)]

use model::{ContainerSlot, PolicySlot};

// What an admission gives: the slot of the entry.
#[derive(Clone, Copy)]
pub enum Admitted {
    Container(ContainerSlot),
    Policy(PolicySlot),
}

// Standing containers, standing policies, and the set bits of the matrix.
#[derive(Clone, Copy)]
pub struct Counts {
    pub containers: u64,
    pub policies: u64,
    pub pairs: u64,
}
