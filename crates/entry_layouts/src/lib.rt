// The tests of the two layouts of admission blocks.
#![tactic(auto)]

ghost use Rattle.std.specs.Prelude.{◌≡◌};
ghost use Rattle.block.specs.Fault.{field_fault};
ghost use Rattle.block.specs.Refusal.{first_refusal};
ghost use Rattle.block.specs.Reader.{container_layout, policy_layout};
ghost use Rattle.block.specs.Positions.{First, FieldAt};
ghost use Rattle.block_bytes.specs.Used.{UsedEnd};
ghost use Rattle.layouts.specs.Steps.{layout_checks};

use block::Refusal;
use block_bytes::Span;
use faults::Run;
use layouts::Body;

// The first field at fault: a container has one, its count.
// Kept: as at `container_test`.
#[tactic(auto, using(block::proofs::Positions::firsts), unfolding(block::specs::Reader::container_layout))]
fn container_limits(block: &[u8; 512]) -> Option<usize>
    ensures value { result ≡ field_fault (container_layout block.now).limits }
    ensures first { First (FieldAt (container_layout block.now).limits) result }
{
    faults::unless(block[1] <= 8, 1)
}

// The rest of the unused bytes is looked at up to `end` only: behind it all are zero.
// Kept: two functions for two layouts: one would ask which it is at each field, since a policy has a direction and two runs of labels, a
// container one; the tests that both need are one, `layout_test`.
pub fn container_test(block: &[u8; 512], end: usize) -> Result<(), Refusal>
    requires { UsedEnd block.now end }
    ensures { result ≡ first_refusal (layout_checks block.now (container_layout block.now)) }
{
    let count = usize::from(block[1]);
    let from = 4 + 4 * count;
    let body = Body {
        first: Run { start: 4, count },
        second: Run {
            start: from,
            count: 0,
        },
        head: Span { from: 2, to: 4 },
        rest: Span { from, to: end },
    };
    layouts::layout_test(block, container_limits(block), body)
}

// The first field at fault: the direction, then the two counts.
// Kept: as at `container_test`.
#[tactic(auto, using(block::proofs::Positions::firsts), unfolding(block::specs::Reader::policy_layout))]
fn policy_limits(block: &[u8; 512]) -> Option<usize>
    ensures value { result ≡ field_fault (policy_layout block.now).limits }
    ensures first { First (FieldAt (policy_layout block.now).limits) result }
{
    let direction = faults::unless(block_bytes::within(1, 2, u64::from(block[1])), 1);
    let select = faults::unless(block[2] <= 4, 2);
    let allow = faults::unless(block[3] <= 4, 3);
    direction.or(select.or(allow))
}

// Kept: as at `container_test`.
pub fn policy_test(block: &[u8; 512], end: usize) -> Result<(), Refusal>
    requires { UsedEnd block.now end }
    ensures { result ≡ first_refusal (layout_checks block.now (policy_layout block.now)) }
{
    let select = usize::from(block[2]);
    let allow = usize::from(block[3]);
    let body = Body {
        first: Run {
            start: 4,
            count: select,
        },
        second: Run {
            start: 4 + 4 * select,
            count: allow,
        },
        head: Span { from: 4, to: 4 },
        rest: Span {
            from: 4 + 4 * (select + allow),
            to: end,
        },
    };
    layouts::layout_test(block, policy_limits(block), body)
}
