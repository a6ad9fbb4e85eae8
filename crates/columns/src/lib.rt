// Columns of the rows of bits, written.
#![tactic(auto)]

ghost use Rattle.std.specs.Prelude.{◌≡◌, ◌%◌, ◌<◌};
ghost use Rattle.store.specs.Layout.{row_count, InRows};
ghost use Rattle.store.specs.Memory.{with_bit, bit_set, column_set};

use store::{Band, Words};

// A row's word i / 64 with bit i of the row made `value`.
fn with_bit(word: u64, i: usize, value: bool) -> u64
    ensures { result ≡ with_bit word (i % 64) value }
{
    let mask = 1u64 << (i % 64);
    if value { word | mask } else { word & !mask }
}

// Bit b of row r made `value`.
#[tactic(auto, unfolding(store::specs::Memory::bit_set))]
fn set_bit(memory: &mut Words, r: usize, b: usize, value: bool)
    requires { (r < row_count) × (b < 256) }
    ensures { memory.new ≡ bit_set memory.old r b value }
{
    let at = store::ROWS + store::ROW_WORDS * r + b / 64;
    memory[at] = with_bit(memory[at], b, value);
}

// Bit b of each row of a band made bit i of the values, where the row is the band's row i: the matrix's column b, or container b's bit
// in each policy's selected or allowed set.
pub fn set_column(memory: &mut Words, band: Band, b: usize, values: [u64; 4])
    requires { InRows band × (b < 256) }
    ensures { memory.new ≡ column_set memory.old band b values }
{
    for i in 0..band.count {
        let value = bitrow::bit_of(values[i / 64], i);
        set_bit(memory, band.row(i), b, value);
    }
}
