// The bytes of a block: numbers of two bytes and their ranges, the checksum, and whether some are zero.
#![tactic(auto)]

ghost use Rattle.std.specs.Prelude.{◌≡◌, ◌+◌, ◌≤◌, ◌<◌, eqb, length, is_none};
ghost use Rattle.block.specs.Bytes.{number_at, weighted, checksum};
ghost use Rattle.block.specs.Reader.{within, zero_fault};
ghost use Rattle.block_bytes.specs.Used.{UsedEnd};

// Some bytes of a block: from one position up to before another.
#[derive(Clone, Copy)]
pub struct Span {
    pub from: usize,
    pub to: usize,
}

// Two bytes, the high one first.
// Kept: a position beside the block: a slice would be no plainer, since what is at fault is told by its position in the whole block.
pub fn number_at(block: &[u8], at: usize) -> u64
    requires { at + 1 < length block.now }
    ensures { (result ≡ number_at block.now at) × (result ≤ 65535) }
{
    u64::from(u16::from_be_bytes([block[at], block[at + 1]]))
}

// The sum over the first `end` bytes of byte times (its position + 1), in 32 bits, where it finds room.
// Kept: the end beside the block, as at `checksum_to`; and a counter: a `zip` with
// the places would be no plainer, since the sum's law is over the bytes, and a zip yields pairs.
fn weighted_sum(block: &[u8; 512], end: usize) -> u32
    requires { end ≤ 510 }
    ensures { result ≡ weighted block.now end }
{
    let mut sum = 0;
    let mut place = 0;
    for &byte in &block[..end] {
        place += 1;
        sum += u32::from(byte) * place;
    }
    sum
}

// The bytes of the span, joined bit by bit: 0 exactly if each of them is. A loop that always runs to its end becomes vector code.
// Kept: by the index, since a span may end before it begins, and then there is no slice of it.
pub fn joined(block: &[u8], span: Span) -> u8
    requires { span.to ≤ length block.now }
    ensures { eqb result 0 ≡ is_none (zero_fault block.now span.from span.to) }
{
    let mut bits = 0;
    for i in span.from..span.to {
        bits |= block[i];
    }
    bits
}

// Where what can be in use of the bytes before 510 ends: behind the fields where all is zero behind them, and else at 510.
pub fn used_end(block: &[u8; 512]) -> usize
    ensures { UsedEnd block.now result }
{
    if joined(block, Span { from: 36, to: 510 }) == 0 {
        return 36;
    }
    510
}

// The checksum that bytes 0 to 509 call for. Zeros add nothing to it. The ends are written out, so that each sum becomes vector code.
// Kept: an end beside the block: a struct of both would be made once and taken apart in each of the three functions that ask for it.
pub fn checksum_to(block: &[u8; 512], end: usize) -> u64
    requires { UsedEnd block.now end }
    ensures { result ≡ checksum block.now }
{
    if end == 36 {
        return u64::from(weighted_sum(block, 36) % 65521);
    }
    u64::from(weighted_sum(block, 510) % 65521)
}

pub fn checksum(block: &[u8; 512]) -> u64
    ensures { result ≡ checksum block.now }
{
    checksum_to(block, used_end(block))
}

// low <= x <= high
#[tactic(auto, unfolding(block::specs::Reader::within))]
pub fn within(low: u64, high: u64, x: u64) -> bool
    ensures { result ≡ within low high x }
{
    (low <= x) & (x <= high)
}
