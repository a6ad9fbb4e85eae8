// The numbers of the C interface: a refusal, a finding.
#![tactic(auto)]

ghost use Rattle.std.specs.Prelude.{◌≡◌, ◌≤◌};
ghost use Rattle.block.specs.Refusal.{reason_number};
ghost use Rattle.model.specs.Findings.{finding_code};
ghost use Rattle.codes.specs.Codes.{refusal_code};

use block::{Reason, Refusal};
use model::Finding;

// Kept: C is given a number, and is given one for any number.
#[tactic(auto, unfolding(crate::specs::Codes::refusal_code))]
pub fn refused_by(number: u8, position: u16) -> u64
    ensures { result ≡ refusal_code number position }
{
    u64::from(number) * 72057594037927936 + u64::from(position)
}

// Of a call that answers a refusal's number alone.
pub fn refused(reason: Reason) -> u64
    ensures { result ≡ refusal_code (reason_number reason) 0 }
{
    refused_by(reason.number(), 0)
}

// Of a call that was lent blocks.
// Kept: the `as`: a `TryFrom` would add a case that cannot come, since no position is above 510.
pub fn refused_at(refusal: Refusal) -> u64
    requires { refusal.position ≤ 510 }
    ensures { result ≡ refusal_code (reason_number refusal.reason) refusal.position }
{
    refused_by(refusal.reason.number(), refusal.position as u16)
}

// Kept: the C interface packs a finding into one number.
#[tactic(auto, unfolding(model::specs::Findings::finding_code))]
pub fn finding_code(finding: Finding) -> u64
    ensures { result ≡ finding_code finding }
{
    u64::from(finding.kind) * 4294967296 + u64::from(finding.a) * 65536 + u64::from(finding.b)
}
