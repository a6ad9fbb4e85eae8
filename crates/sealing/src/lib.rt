// A block made from its first byte on, the checksum's sum being taken on the way.
#![tactic(auto)]

ghost use Rattle.std.specs.Prelude.{◌≡◌, ◌+◌, ◌≤◌, take};
ghost use Rattle.block.specs.Written.{number_bytes, sealed};
ghost use Rattle.sealing.specs.Sealing.{Summed, Lengthens};

// The two bytes of a number, the high one first.
// Kept: the cast loses no bit, as is proved, and costs nothing; a test of the number, as `try_from` makes, would never fail here.
fn two_bytes(number: u64) -> [u8; 2]
    requires { number ≤ 65535 }
    ensures { result ≡ number_bytes number }
{
    (number as u16).to_be_bytes()
}

// A number of two bytes, the high one first, put behind the first `at` bytes. Answers the sum with these two.
// Kept: a struct of the block, the place and the sum would hold a `&mut` that is lent on for each number; the sums, handed from call to
// call, say the same. No `From` takes a `usize` to a `u64`.
pub fn put_number(block: &mut [u8], at: usize, number: u64, sum: u64) -> u64
    requires { Summed block.old at sum × (at + 2 ≤ 510) × (number ≤ 65535) }
    ensures { Lengthens block.old at (number_bytes number) block.new result }
{
    let [high, low] = two_bytes(number);
    block[at] = high;
    block[at + 1] = low;
    let place = at as u64 + 1;
    sum + u64::from(high) * place + u64::from(low) * (place + 1)
}

// Zeros behind the first `at` bytes, then the checksum. Zeros add nothing to the sum.
// Kept: the block with a position, as at `put_number`: where its fields end is known where the last was put.
pub fn seal(block: &mut [u8], at: usize, sum: u64)
    requires { Summed block.old at sum }
    ensures { block.new ≡ sealed (take at block.old) }
{
    block[at..510].fill(0);
    let [high, low] = two_bytes(sum % 65521);
    block[510] = high;
    block[511] = low;
}
