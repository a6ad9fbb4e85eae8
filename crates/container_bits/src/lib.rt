// One container's bits in the rows: what its admission and its removal store.
#![tactic(auto)]

ghost use Rattle.std.specs.Prelude.{◌≡◌, ◌<◌};
ghost use Rattle.container_bits.specs.ContainerBits.{bits_set};

use store::Words;

// Container c's row and column of the matrix stored, and its bit in each policy's selected and allowed set.
#[tactic(auto, unfolding(crate::specs::ContainerBits::bits_set))]
pub fn store_bits(
    memory: &mut Words,
    c: usize,
    row: [u64; 4],
    column: [u64; 4],
    selected: [u64; 4],
    allowed: [u64; 4],
)
    requires { c < 256 }
    ensures { memory.new ≡ bits_set memory.old c row column selected allowed }
{
    access::set_row(memory, c, row);
    columns::set_column(memory, store::MATRIX, c, column);
    columns::set_column(memory, store::Part::Select.band(), c, selected);
    columns::set_column(memory, store::Part::Allow.band(), c, allowed);
}
