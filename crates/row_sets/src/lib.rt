// Sets of numbers below 256, made and joined, as rows by value.
#![tactic(auto)]

ghost use Rattle.std.specs.Prelude.{◌≡◌, cond, ◌<◌, ◌-◌, ◌/◌, ◌%◌, eqb};
ghost use Rattle.bitrow.specs.Bit.{bit, bit_at};
ghost use Rattle.bitrow.specs.Set.{nothing, under, at_least, insert, remove, meet, join, less};

pub fn none() -> [u64; 4]
    ensures { bit_at result ≡ nothing }
{
    [0; 4]
}

pub fn all() -> [u64; 4]
    ensures { bit_at result ≡ under 256 }
{
    [u64::MAX; 4]
}

// A word with its n low bits set.
fn low_bits(n: usize) -> u64
    ensures { bit result ≡ meet (under n) (under 64) }
{
    if n < 64 { (1u64 << n) - 1 } else { u64::MAX }
}

// The numbers below i.
fn below(i: usize) -> [u64; 4]
    ensures { bit_at result ≡ meet (under i) (under 256) }
{
    [
        low_bits(i),
        low_bits(i.saturating_sub(64)),
        low_bits(i.saturating_sub(128)),
        low_bits(i.saturating_sub(192)),
    ]
}

// The numbers from i on.
pub fn at_least(i: usize) -> [u64; 4]
    ensures { bit_at result ≡ meet (at_least i) (under 256) }
{
    except(all(), below(i))
}

pub fn has(row: [u64; 4], i: usize) -> bool
    requires { i < 256 }
    ensures { result ≡ bit_at row i }
{
    bitrow::bit_of(row[i / 64], i)
}

// Word k of the row of i alone.
fn word_of(k: usize, i: usize) -> u64
    ensures { bit result ≡ cond (eqb (i / 64) k) (insert (i % 64) nothing) nothing }
{
    if i / 64 == k {
        bitrow::word_with(0, i)
    } else {
        0
    }
}

// The number i alone. Each word is made by itself: a row that is changed at a word not known before is stored, and read again.
fn only(i: usize) -> [u64; 4]
    requires { i < 256 }
    ensures { bit_at result ≡ insert i nothing }
{
    [word_of(0, i), word_of(1, i), word_of(2, i), word_of(3, i)]
}

pub fn with(row: [u64; 4], i: usize) -> [u64; 4]
    requires { i < 256 }
    ensures { bit_at result ≡ insert i (bit_at row) }
{
    either(row, only(i))
}

pub fn without(row: [u64; 4], i: usize) -> [u64; 4]
    requires { i < 256 }
    ensures { bit_at result ≡ remove i (bit_at row) }
{
    except(row, only(i))
}

pub fn both(a: [u64; 4], b: [u64; 4]) -> [u64; 4]
    ensures { bit_at result ≡ meet (bit_at a) (bit_at b) }
{
    [a[0] & b[0], a[1] & b[1], a[2] & b[2], a[3] & b[3]]
}

pub fn either(a: [u64; 4], b: [u64; 4]) -> [u64; 4]
    ensures { bit_at result ≡ join (bit_at a) (bit_at b) }
{
    [a[0] | b[0], a[1] | b[1], a[2] | b[2], a[3] | b[3]]
}

// The numbers of a that are not in b.
pub fn except(a: [u64; 4], b: [u64; 4]) -> [u64; 4]
    ensures { bit_at result ≡ less (bit_at a) (bit_at b) }
{
    [a[0] & !b[0], a[1] & !b[1], a[2] & !b[2], a[3] & !b[3]]
}
