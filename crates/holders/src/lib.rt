// The policies whose set has a container.
#![tactic(auto)]

ghost use Rattle.std.specs.Prelude.{◌≡◌, ◌+◌, ◌≤◌, ◌<◌};
ghost use Rattle.bitrow.specs.Bit.{bit, bit_at};
ghost use Rattle.sets.specs.Sets.{bits};
ghost use Rattle.container_bits.specs.ContainerBits.{holding_set};

// A bit for each of 64 policies from `first` on: set where the policy's set has c.
fn holding_word(sets: &[[u64; 4]; 128], first: usize, c: usize) -> u64
    requires { (first ≤ 64) × (c < 256) }
    ensures { bit result ≡ holding_set 64 (λ k. bits sets.now (first + k)) c }
{
    let mut those = 0u64;
    let word = c / 64;
    for k in 0..64 {
        if bitrow::bit_of(sets[first + k][word], c) {
            those = bitrow::word_with(those, k);
        }
    }
    those
}

// The policies whose set has c.
pub fn holding(sets: &[[u64; 4]; 128], c: usize) -> [u64; 4]
    requires { c < 256 }
    ensures { bit_at result ≡ holding_set 128 (bits sets.now) c }
{
    [holding_word(sets, 0, c), holding_word(sets, 64, c), 0, 0]
}
