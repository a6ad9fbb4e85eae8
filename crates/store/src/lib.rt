// The memory's layout. What its words and bits are, and what each write makes of them, is defined in specs/ and proved in proofs/.
#![tactic(auto)]

ghost use Rattle.std.specs.Prelude.{◌≡◌, ◌<◌};
ghost use Rattle.store.specs.Layout.{InRows, band_row, offset_of, band_of};

// ---- the layout (docs/MEMORY.md): three words of settings, the slots of containers and of policies, the rows of bits

pub const SETTINGS_WORDS: usize = 3;

pub const CONTAINERS: usize = SETTINGS_WORDS;

pub const CONTAINER_SLOTS: usize = 256;

// A slot of a container is one part: a header and eight labels.
pub const CONTAINER_LABELS: usize = 8;

pub const CONTAINER_WORDS: usize = 1 + CONTAINER_LABELS;

pub const POLICIES: usize = CONTAINERS + CONTAINER_SLOTS * CONTAINER_WORDS;

// A word of a row has 64 slots: where those of each word after the first begin.
pub const CONTAINERS_64: usize = CONTAINERS + 64 * CONTAINER_WORDS;

pub const CONTAINERS_128: usize = CONTAINERS + 128 * CONTAINER_WORDS;

pub const CONTAINERS_192: usize = CONTAINERS + 192 * CONTAINER_WORDS;

pub const POLICY_SLOTS: usize = 128;

// A slot of a policy is its direction and two parts of a header and four labels: where each begins in the slot.
pub const PART_LABELS: usize = 4;

pub const PART_WORDS: usize = 1 + PART_LABELS;

pub const SELECT: usize = 1;

pub const ALLOW: usize = SELECT + PART_WORDS;

pub const POLICY_WORDS: usize = ALLOW + PART_WORDS;

pub const POLICIES_64: usize = POLICIES + 64 * POLICY_WORDS;

pub const ROWS: usize = POLICIES + POLICY_SLOTS * POLICY_WORDS;

pub const ROW_COUNT: usize = CONTAINER_SLOTS + 2 * POLICY_SLOTS;

pub const ROW_WORDS: usize = 4;

pub const WORDS: usize = ROWS + ROW_COUNT * ROW_WORDS;

// The memory of a registry, once a call has seen that it is as long.
pub type Words = [u64; WORDS];

// A table of rows: row i of the table is row first + step * i of the rows of bits, for each i below count.
#[derive(Clone, Copy)]
pub struct Band {
    pub first: usize,
    pub step: usize,
    pub count: usize,
}

impl Band {
    pub fn row(self, i: usize) -> usize
        requires { InRows self × (i < self.count) }
        ensures { result ≡ band_row self i }
    {
        self.first + self.step * i
    }
}

pub const MATRIX: Band = Band {
    first: 0,
    step: 1,
    count: CONTAINER_SLOTS,
};

// The two sets of each policy stand side by side, after the matrix.
pub const SELECTED_ROWS: usize = CONTAINER_SLOTS;

pub const ALLOWED_ROWS: usize = SELECTED_ROWS + 1;

pub const SET_STEP: usize = 2;

// A policy's two parts: each has labels in the policy's slot, and a set among the rows.
#[derive(Clone, Copy)]
pub enum Part {
    Select,
    Allow,
}

impl Part {
    // Where the labels begin in the slot.
    pub fn offset(self) -> usize
        ensures { result ≡ offset_of self }
    {
        match self {
            Part::Select => SELECT,
            Part::Allow => ALLOW,
        }
    }

    // The table of the sets, a row for each policy.
    pub fn band(self) -> Band
        ensures { result ≡ band_of self }
    {
        let first = match self {
            Part::Select => SELECTED_ROWS,
            Part::Allow => ALLOWED_ROWS,
        };
        Band {
            first,
            step: SET_STEP,
            count: POLICY_SLOTS,
        }
    }
}
