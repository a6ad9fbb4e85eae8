// Sets joined to rows: for each policy, what it allows to the row of each container that it selects, or the other way round.
#![tactic(auto)]

ghost use Rattle.std.specs.Prelude.{◌≡◌, ◌≤◌, length};
ghost use Rattle.bitrow.specs.Bit.{bit, bit_at};
ghost use Rattle.model.specs.Model.{container_slots};
ghost use Rattle.sets.specs.Sets.{bits, Empty};
ghost use Rattle.joins.specs.Joins.{raised, Joined, LinesAre};

use row_members::Bits;
use rules::Policies;

// A set joined to the row of each of some containers, of which `word` has the 64 from `first` on.
fn join_word(lines: &mut [[u64; 4]; 256], word: u64, first: usize, whom: [u64; 4])
    requires { first ≤ 192 }
    ensures { Joined (raised first (bit word)) (bit_at whom) lines.old lines.new }
{
    for k in Bits(word) {
        let a = first + usize::from(k);
        let row = row_sets::either(lines[a], whom);
        lines[a] = row;
    }
}

// The same by a row of four words.
fn join_rows(lines: &mut [[u64; 4]; 256], who: [u64; 4], whom: [u64; 4])
    ensures { Joined (bit_at who) (bit_at whom) lines.old lines.new }
{
    join_word(lines, who[0], 0, whom);
    join_word(lines, who[1], 64, whom);
    join_word(lines, who[2], 128, whom);
    join_word(lines, who[3], 192, whom);
}

// For each of some containers, the union of the rows of those of the policies whose row of `tests` has it. The lines are empty before.
// Kept: two arrays and not the struct of both, since each of a policy's two sets is the test of one call and the row of the other.
pub fn join_all(
    lines: &mut [[u64; 4]; 256],
    policies: [u64; 4],
    tests: &[[u64; 4]; 128],
    rows: &[[u64; 4]; 128],
    some: [u64; 4],
)
    requires { Empty container_slots lines.old }
    ensures { LinesAre 128 (bit_at some) (bit_at policies) (bits tests.now) (bits rows.now) lines.new }
{
    for q in Policies::of(policies) {
        let those = row_sets::both(tests[q], some);
        join_rows(lines, those, rows[q]);
    }
}
