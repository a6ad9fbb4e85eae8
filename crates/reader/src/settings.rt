// A block of settings: its test, and what it says.
ghost use Rattle.std.specs.Prelude.{◌≡◌};
ghost use Rattle.block.specs.Refusal.{first_refusal};
ghost use Rattle.block.specs.Fault.{field_fault};
ghost use Rattle.block.specs.Reader.{settings_fields, settings_checks, read_settings};
ghost use Rattle.block.specs.Positions.{First, FieldAt};
ghost use Rattle.block.specs.Reading.{read_words};
ghost use Rattle.reader.specs.Settings.{value_fits, system_fault};

use block::{Reason, Refusal, Settings};
use block_bytes::Span;

// The system value is 0 exactly with system key 0.
fn value_fits(key: u64, value: u64) -> bool
    ensures { result ≡ value_fits key value }
{
    if key == 0 {
        value == 0
    } else {
        block_bytes::within(1, 65535, value)
    }
}

// The system key, then the system value.
fn system_fault(key: u64, value: u64) -> Option<usize>
    ensures { result ≡ system_fault key value }
{
    faults::unless(key <= 64, 2).or(faults::unless(value_fits(key, value), 4))
}

// The first field at fault: the user key, then the system label.
#[tactic(auto, using(block::proofs::Positions::firsts), unfolding(block::specs::Reader::settings_fields))]
fn settings_fault(block: &[u8; 512]) -> Option<usize>
    ensures value { result ≡ field_fault (settings_fields block.now) }
    ensures first { First (FieldAt (settings_fields block.now)) result }
{
    let user = faults::unless(block_bytes::within(1, 64, u64::from(block[1])), 1);
    let key = u64::from(block[2]);
    let value = block_bytes::number_at(block, 4);
    user.or(system_fault(key, value))
}

// The test of a block of settings, all but its length.
#[tactic(auto, unfolding(block::specs::Reader::settings_checks, block::specs::Reader::settings_unused))]
fn settings_test(block: &[u8; 512]) -> Result<(), Refusal>
    ensures { result ≡ first_refusal (settings_checks block.now) }
{
    let checked = block_bytes::number_at(block, 510) == block_bytes::checksum(block);
    faults::refuse(Reason::Checksum, faults::unless(checked, 510))?;
    faults::refuse(Reason::Kind, faults::unless(block[0] == b'S', 0))?;
    faults::refuse(Reason::Range, settings_fault(block))?;
    let head = faults::zero_fault(block, Span { from: 3, to: 4 });
    let rest = faults::zero_fault(block, Span { from: 6, to: 510 });
    faults::refuse(Reason::Unused, head.or(rest))
}

// The block of an opening.
#[tactic(auto, unfolding(block::specs::Reader::read_settings, block::specs::Reader::settings_checks, block::specs::Reader::settings_said, block::specs::Reading::settings_words))]
pub fn read_settings(block: &[u8]) -> Result<Settings, Refusal>
    ensures { result ≡ read_words (read_settings block.now) }
{
    let bytes = layouts::whole(block)?;
    settings_test(bytes)?;
    Ok(Settings {
        user_key: u64::from(bytes[1]),
        system_key: u64::from(bytes[2]),
        system_value: block_bytes::number_at(bytes, 4),
    })
}
