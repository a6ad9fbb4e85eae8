// What a block of settings says, and which refusal a block meets.
#![tactic(auto)]

mod entry;
mod settings;

pub use entry::test_entry;
pub use settings::read_settings;
