// What is tested of a row: whether it is empty, part of another, or the same.
#![tactic(auto)]

ghost use Rattle.std.specs.Prelude.{◌≡◌, not};
ghost use Rattle.bitrow.specs.Bit.{bit_at};
ghost use Rattle.bitrow.specs.Set.{has_some, part, equal};

pub fn is_empty(row: [u64; 4]) -> bool
    ensures { result ≡ not (has_some (bit_at row)) }
{
    row[0] | row[1] | row[2] | row[3] == 0
}

// Whether all of a is in b.
pub fn part_of(a: [u64; 4], b: [u64; 4]) -> bool
    ensures { result ≡ part (bit_at a) (bit_at b) }
{
    is_empty(row_sets::except(a, b))
}

// Kept: a function for `==`, since callers are told of the numbers of two rows by it, and `==` tells them of the words.
pub fn same(a: [u64; 4], b: [u64; 4]) -> bool
    ensures { result ≡ equal (bit_at a) (bit_at b) }
{
    a == b
}
