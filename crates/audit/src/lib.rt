// The audit: every stored bit compared with the rules.
#![tactic(auto)]

ghost use Rattle.std.specs.Prelude.{◌≡◌};
ghost use Rattle.model.specs.Registry.{consistent};
ghost use Rattle.formed.specs.Registry.{registry_in, EntriesFormed};

use store::Words;

// "Do all kept bits equal the rules?"
pub fn is_consistent(memory: &Words) -> bool
    requires { EntriesFormed memory.now }
    ensures { result ≡ consistent (registry_in memory.now) }
{
    let standing = stored::standing::<model::ContainerSlot>(memory);
    let mut gathered = matrix_rows::ungathered(standing);
    matrix_rows::gather(memory, None, standing, &mut gathered);
    (0..store::ROW_COUNT).all(|x| {
        row_tests::same(access::row_at(memory, x), whole::row_of_bits(x, &gathered))
    })
}
