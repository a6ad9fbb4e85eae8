// The test of an admission block.
ghost use Rattle.std.specs.Prelude.{◌≡◌};
ghost use Rattle.block.specs.Reader.{read_entry};
ghost use Rattle.block.specs.Reading.{settings_of, read_sort};

use block::{Reason, Refusal, Settings, Sort};

// The kind of the entry that the block of an admission says under the settings, or the first refusal that it meets.
#[tactic(auto, unfolding(block::specs::Reader::read_entry, block::specs::Reader::entry_checks, block::specs::Reader::entry_said, block::specs::Reader::layout_of, layouts::specs::Steps::layout_checks, layouts::specs::Steps::body_checks))]
pub fn test_entry(settings: Settings, block: &[u8]) -> Result<Sort, Refusal>
    ensures { result ≡ read_sort (read_entry (settings_of settings) block.now) }
{
    let (bytes, end) = layouts::frame(block)?;
    match bytes[0] {
        b'C' => {
            entry_layouts::container_test(bytes, end)?;
            Ok(Sort::Container)
        }
        b'P' => {
            entry_layouts::policy_test(bytes, end)?;
            Ok(Sort::Policy)
        }
        _ => Err(Reason::Kind.into()),
    }
}
