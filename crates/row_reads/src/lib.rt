// What is read of a row: how many numbers it has, and the lowest from a number on.
#![tactic(auto)]

ghost use Rattle.std.specs.Prelude.{◌≡◌};
ghost use Rattle.bitrow.specs.Bit.{bit_at};
ghost use Rattle.bitrow.specs.Set.{size, lowest_from};

pub fn count(row: [u64; 4]) -> u32
    ensures { result ≡ size (bit_at row) 256 }
{
    u64::count_ones(row[0])
        + u64::count_ones(row[1])
        + u64::count_ones(row[2])
        + u64::count_ones(row[3])
}

// The lowest number of the row at or above i.
// Kept: the `as`, since no `From` makes a `usize` of the `u32` that `trailing_zeros` gives; and a row beside a number, which is another at
// each call.
pub fn next_from(row: [u64; 4], i: usize) -> Option<usize>
    ensures { result ≡ lowest_from (bit_at row) i }
{
    for k in i / 64..4 {
        let from = i.max(64 * k);
        let rest = row[k] >> (from % 64);
        if rest > 0 {
            return Some(from + rest.trailing_zeros() as usize);
        }
    }
    None
}
