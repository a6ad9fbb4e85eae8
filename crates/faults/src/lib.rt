// The searches for the first position at fault: a fault is its position in the block.
#![tactic(auto)]

ghost use Rattle.std.specs.Prelude.{◌≡◌, ℕ, ◌+◌, ◌*◌, ◌≤◌, ◌<◌, length, Option, Result, ⊤};
ghost use Rattle.std.specs.Result.{result_and};
ghost use Rattle.block.specs.Fault.{unless, first_between};
ghost use Rattle.block.specs.Refusal.{refuse};
ghost use Rattle.block.specs.Reader.{label_fault, range_fault, rise_fault, order_fault, zero_fault};
ghost use Rattle.block.specs.Positions.{First, RangeAt, OrderAt, UnusedAt};

use block::{Reason, Refusal};
use block_bytes::Span;

// A label list: where its first label begins, and how many there are.
#[derive(Clone, Copy)]
pub struct Run {
    pub start: usize,
    pub count: usize,
}

// A fault at position p, unless the test holds.
pub fn unless(test: bool, p: usize) -> Option<usize>
    ensures { result ≡ unless test p }
{
    if test { None } else { Some(p) }
}

// The first fault that the search finds at the numbers from `from` on and before `to`.
// Kept: `find_map` tells of the calls on the run of its iterator, and that this is the first fault would be proved over that run, where
// the loop has one equation a turn.
fn first_between<F: Fn(usize) -> Option<usize>>(from: usize, to: usize, search: F) -> Option<usize>
    requires { (k : ℕ) → from ≤ k → k < to → F.pre search k }
    ensures { (f : ℕ → Option ℕ) → ((k : ℕ) (r : Option ℕ) → from ≤ k → k < to → F.post search k r → r ≡ f k) → result ≡ first_between f from to }
{
    for k in from..to {
        if let Some(p) = search(k) {
            return Some(p);
        }
    }
    None
}

// The fault of the label whose key stands at p.
#[tactic(auto, unfolding(block::specs::Reader::label_fault))]
fn label_fault(block: &[u8], p: usize) -> Option<usize>
    requires { p + 4 ≤ length block.now }
    ensures { result ≡ label_fault block.now p }
{
    let key = block_bytes::number_at(block, p);
    let value = block_bytes::number_at(block, p + 2);
    unless(block_bytes::within(1, 64, key), p).or(unless(
        block_bytes::within(1, 65535, value),
        p + 2,
    ))
}

// The first key or value out of range, by its first byte.
// Kept: this and `order_fault` are two rules of the format; the search that they share is `first_between`.
#[tactic(auto, using(block::proofs::Positions::firsts), unfolding(block::specs::Reader::range_fault))]
pub fn range_fault(block: &[u8], run: Run) -> Option<usize>
    requires { run.start + 4 * run.count ≤ length block.now }
    ensures value { result ≡ range_fault block.now run.start run.count }
    ensures first { First (RangeAt block.now (record { start = run.start; count = run.count })) result }
{
    first_between(0, run.count, |k| label_fault(block, run.start + 4 * k))
}

// The key at p exceeds the key before it.
#[tactic(auto, unfolding(block::specs::Reader::rise_fault))]
fn rise_fault(block: &[u8], p: usize) -> Option<usize>
    requires { (4 ≤ p) × (p + 2 ≤ length block.now) }
    ensures { result ≡ rise_fault block.now p }
{
    let before = block_bytes::number_at(block, p - 4);
    let key = block_bytes::number_at(block, p);
    unless(before < key, p)
}

// The first key that does not rise, by its first byte.
// Kept: as at `range_fault`.
#[tactic(auto, using(block::proofs::Positions::firsts), unfolding(block::specs::Reader::order_fault))]
pub fn order_fault(block: &[u8], run: Run) -> Option<usize>
    requires { run.start + 4 * run.count ≤ length block.now }
    ensures value { result ≡ order_fault block.now run.start run.count }
    ensures first { First (OrderAt block.now (record { start = run.start; count = run.count })) result }
{
    first_between(1, run.count, |k| rise_fault(block, run.start + 4 * k))
}

// Where the lowest byte that is not zero is looked for one by one: behind the pieces of 32 bytes that are zero, as long as more follow.
// Kept: a `while`: by `chunks_exact` the place of a piece would have to be carried back to the block's, and a `for` over numbers steps by one.
fn search_start(block: &[u8], span: Span) -> usize
    requires { span.to ≤ length block.now }
    ensures { zero_fault block.now result span.to ≡ zero_fault block.now span.from span.to }
{
    let mut from = span.from;
    while span.to.saturating_sub(from) > 32 {
        let piece = Span {
            from,
            to: from + 32,
        };
        if block_bytes::joined(block, piece) != 0 {
            break;
        }
        from += 32;
    }
    from
}

// The lowest byte that is not zero, looked for only where there is one.
#[tactic(auto, using(block::proofs::Positions::firsts), unfolding(block::specs::Reader::zero_fault))]
pub fn zero_fault(block: &[u8], span: Span) -> Option<usize>
    requires { span.to ≤ length block.now }
    ensures value { result ≡ zero_fault block.now span.from span.to }
    ensures first { First (UnusedAt block.now (record { from = span.from; to = span.to })) result }
{
    if block_bytes::joined(block, span) == 0 {
        return None;
    }
    let start = search_start(block, span);
    first_between(start, span.to, |i| unless(block[i] == 0, i))
}

// The refusal for this reason, if there is a fault. What comes after it is handed over by `?`, or by std's `and`, as the second clause
// says.
pub fn refuse(reason: Reason, fault: Option<usize>) -> Result<(), Refusal>
    ensures alone { result ≡ refuse reason fault (Ok tt) }
    ensures before_others { (rest : Result ⊤ Refusal) → result_and result rest ≡ refuse reason fault rest }
{
    match fault {
        None => Ok(()),
        Some(position) => Err(Refusal { reason, position }),
    }
}
