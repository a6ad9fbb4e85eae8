// The tally of a caller's batches, by value.
#![tactic(auto)]

ghost use Rattle.std.specs.Prelude.{◌≡◌};
ghost use Rattle.model.specs.Batch.{tallied_one};

use model::Tally;

// A tally with one block more, taken or refused. The largest number stays.
#[tactic(auto, unfolding(model::specs::Batch::tallied_one))]
pub fn counted(tally: Tally, taken: bool) -> Tally
    ensures { result ≡ tallied_one tally taken }
{
    if taken {
        Tally {
            taken: tally.taken.saturating_add(1),
            refused: tally.refused,
        }
    } else {
        Tally {
            taken: tally.taken,
            refused: tally.refused.saturating_add(1),
        }
    }
}
