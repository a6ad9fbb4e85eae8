// The 512-byte format: the types that hold what a test or a reading of a block answers. What a block of settings, a container or a
// policy says, and which refusal it meets, is defined in specs/.
#![tactic(auto)]

ghost use Rattle.std.specs.Prelude.{◌≡◌};
ghost use Rattle.block.specs.Reader.{direction_of};
ghost use Rattle.block.specs.Refusal.{reason_number, lone_refusal};
ghost use Rattle.block.specs.Written.{direction_number};

// Why a call or a block is refused, each with its number in document 01's list, the last two in document 02.
#[derive(Clone, Copy, PartialEq, Eq)]
pub enum Reason {
    MemorySize = 1,
    NotWellFormed = 2,
    BlockLength = 3,
    Checksum = 4,
    Kind = 5,
    Limit = 6,
    Range = 7,
    Order = 8,
    Unused = 9,
    BeyondTable = 10,
    FreeSlot = 11,
    TableFull = 12,
    BufferLength = 13,
    BatchLength = 14,
}

impl Reason {
    // Its number in the documents.
    // Kept: a method: `reason.number()` says what the number is, where `u8::from(reason)` would not.
    pub fn number(self) -> u8
        ensures { result ≡ reason_number self }
    {
        self as u8
    }
}

// A refusal of a call that is lent a block: its reason, and the position at fault in the block, 0 where there is none.
// Kept: 0 and no `Option`: document 02, Note 5, has 0 for those.
#[derive(Clone, Copy, PartialEq, Eq)]
pub struct Refusal {
    pub reason: Reason,
    pub position: usize,
}

// A refusal that is of no place in a block.
impl From<Reason> for Refusal {
    ghost from_gives = { λ reason refusal. refusal ≡ lone_refusal reason };

    fn from(reason: Reason) -> Refusal {
        Refusal {
            reason,
            position: 0,
        }
    }
}

// The kind of an entry that a block holds.
#[derive(Clone, Copy, PartialEq, Eq)]
pub enum Sort {
    Container,
    Policy,
}

// The system key is 0 where no system label is set.
// Kept: 0 and no `Option`: it is the number in the block and in the memory's word.
#[derive(Clone, Copy)]
pub struct Settings {
    pub user_key: u64,
    pub system_key: u64,
    pub system_value: u64,
}

// A policy is ingress or egress.
#[derive(Clone, Copy, PartialEq, Eq)]
pub enum Direction {
    Ingress,
    Egress,
}

// By the number that blocks and memory have: 1 ingress, 2 egress.
// Kept: the number: it is the format's, in a block's byte and a slot's word, and either may hold any.
impl From<u64> for Direction {
    ghost from_gives = { λ number direction. direction ≡ direction_of number };

    #[tactic(auto, unfolding(crate::specs::Reader::direction_of))]
    fn from(number: u64) -> Direction
        ensures { result ≡ direction_of number }
    {
        if number == 1 {
            Direction::Ingress
        } else {
            Direction::Egress
        }
    }
}

impl From<Direction> for u64 {
    ghost from_gives = { λ direction number. number ≡ direction_number direction };

    fn from(direction: Direction) -> u64
        ensures { result ≡ direction_number direction }
    {
        match direction {
            Direction::Ingress => 1,
            Direction::Egress => 2,
        }
    }
}
