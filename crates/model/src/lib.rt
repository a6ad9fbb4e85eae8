// The types that the calls share.
#![tactic(auto)]

ghost use Rattle.std.specs.Prelude.{◌≡◌, ◌<◌, ◌⊎◌, MatchOption};
ghost use Rattle.model.specs.Kinds.{kind_number};

// A slot of the table of containers.
// Kept: a type for each table: a slot of one is never handed over for a slot of the other.
#[derive(Clone, Copy)]
pub struct ContainerSlot(pub usize);

// A slot of the table of policies.
// Kept: as above.
#[derive(Clone, Copy)]
pub struct PolicySlot(pub usize);

// The counters of a caller's batches: blocks taken and blocks refused.
#[repr(C)]
#[derive(Clone, Copy)]
pub struct Tally {
    pub taken: u64,
    pub refused: u64,
}

// One thing found: its kind, 1 to 7, and the two numbers that the kind gives.
// Kept: `kind: u16`: the C interface packs the three numbers into one, and the definitions of the findings are over these numbers.
#[derive(Clone, Copy)]
pub struct Finding {
    pub kind: u16,
    pub a: u16,
    pub b: u16,
}

// The seven kinds of finding, each with its number.
#[derive(Clone, Copy)]
pub enum Kind {
    AllReachable = 1,
    AllIsolated = 2,
    UserCross = 3,
    SystemIsolation = 4,
    Shadow = 5,
    Conflict = 6,
    Irrelevance = 7,
}

impl Kind {
    // Kept: a method, as at `block::Reason`.
    pub fn number(self) -> u16
        ensures { result ≡ kind_number self }
    {
        self as u16
    }

    // Kept: `number: usize`: this is where a number becomes a kind, and any may be asked of; a `TryFrom` would want an error type that
    // nobody reads.
    pub fn numbered(number: usize) -> Option<Kind>
        ensures { MatchOption result (number ≡ 0 ⊎ 7 < number) (λ kind. number ≡ kind_number kind) }
    {
        match number {
            1 => Some(Kind::AllReachable),
            2 => Some(Kind::AllIsolated),
            3 => Some(Kind::UserCross),
            4 => Some(Kind::SystemIsolation),
            5 => Some(Kind::Shadow),
            6 => Some(Kind::Conflict),
            7 => Some(Kind::Irrelevance),
            _ => None,
        }
    }
}
