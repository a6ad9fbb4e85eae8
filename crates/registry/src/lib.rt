// The exported calls and what they answer.
#![tactic(auto)]

ghost use Rattle.std.specs.Prelude.{◌≡◌};
ghost use Rattle.store.specs.Layout.{memory_words};

pub use admission::admit;
pub use answers::{Admitted, Counts};
pub use batches::admit_batch;
pub use block::{Reason, Refusal};
pub use findings::Put;
pub use model::Tally;
pub use opening::open;
pub use queries::{carries_user, counts, reaches};
pub use removal::{remove_container, remove_policy};
pub use upkeep::{audit, rebuild};
pub use walks::{findings, next_finding};
pub use writing::write;

// The number of words of the memory that every call is lent.
pub fn words() -> usize
    ensures { result ≡ memory_words }
{
    store::WORDS
}
