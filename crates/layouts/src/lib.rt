// What every block is tested for, and what an admission block is tested for by its layout.
#![tactic(auto)]

ghost use Rattle.std.specs.Prelude.{◌≡◌, ◌∷◌, length};
ghost use Rattle.block.specs.Refusal.{check, first_refusal};
ghost use Rattle.layouts.specs.Steps.{runs_of, unused_of, BodyWithin, body_checks, IsWhole, Frames};

use block::{Reason, Refusal};
use block_bytes::Span;
use faults::Run;

// The block as its 512 bytes, or refusal 3.
pub fn whole(block: &[u8]) -> Result<&[u8; 512], Refusal>
    ensures { IsWhole block.now result }
{
    block.as_array().ok_or(Reason::BlockLength.into())
}

// The block as its 512 bytes and where the used ones end, or refusal 3 or 4. It has one caller: so it is compiled into that, without a
// call for each block of a batch.
pub fn frame(block: &[u8]) -> Result<(&[u8; 512], usize), Refusal>
    ensures { Frames block.now result }
{
    let bytes = whole(block)?;
    let end = block_bytes::used_end(bytes);
    if block_bytes::number_at(bytes, 510) != block_bytes::checksum_to(bytes, end) {
        return Err(Refusal {
            reason: Reason::Checksum,
            position: 510,
        });
    }
    Ok((bytes, end))
}

// The labels and the unused bytes of an admission block. A run of no label and a span of no byte find no fault.
#[derive(Clone, Copy)]
pub struct Body {
    pub first: Run,
    pub second: Run,
    pub head: Span,
    pub rest: Span,
}

// Refusal 6, then 7 over all labels, 8 over all labels, each run rising by itself, and 9.
#[tactic(auto, unfolding(crate::specs::Steps::body_checks, crate::specs::Steps::runs_of, crate::specs::Steps::unused_of))]
pub fn layout_test(block: &[u8], limits: Option<usize>, body: Body) -> Result<(), Refusal>
    requires { limits ≡ None → BodyWithin (length block.now) body }
    ensures { result ≡ first_refusal (check Reason.Limit limits ∷ body_checks block.now (runs_of body) (unused_of body)) }
{
    let Body {
        first,
        second,
        head,
        rest,
    } = body;
    faults::refuse(Reason::Limit, limits)?;
    let range = faults::range_fault(block, first).or(faults::range_fault(block, second));
    faults::refuse(Reason::Range, range)?;
    let order = faults::order_fault(block, first).or(faults::order_fault(block, second));
    faults::refuse(Reason::Order, order)?;
    let unused = faults::zero_fault(block, head).or(faults::zero_fault(block, rest));
    faults::refuse(Reason::Unused, unused)
}
