// Sets of numbers below 256, as four words of bits: number i is bit i % 64 of word i / 64. Here is what is done with one word.
#![tactic(auto)]

ghost use Rattle.std.specs.Prelude.{◌≡◌, ◌<◌, ◌%◌};
ghost use Rattle.std.specs.Int.Count.{count_trailing_zeros};
ghost use Rattle.bitrow.specs.Bit.{bit};
ghost use Rattle.bitrow.specs.Set.{insert, remove};

// Whether i is in a row, by that row's word i / 64 alone.
pub fn bit_of(word: u64, i: usize) -> bool
    ensures { result ≡ bit word (i % 64) }
{
    (word >> (i % 64)) & 1 == 1
}

// A row's word i / 64 with i put in.
pub fn word_with(word: u64, i: usize) -> u64
    ensures { bit result ≡ insert (i % 64) (bit word) }
{
    word | (1u64 << (i % 64))
}

// A word without its lowest bit.
pub fn without_lowest(word: u64) -> u64
    requires { 0 < word }
    ensures { (bit result ≡ remove (count_trailing_zeros 64 word) (bit word)) × (result < word) }
{
    word & (word - 1)
}
