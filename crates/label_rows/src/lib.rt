// The containers that match a part, by the rows of its labels. Where a label was not found, the candidates that are left are tried.
#![tactic(auto)]

ghost use Rattle.std.specs.Prelude.{◌≡◌};
ghost use Rattle.bitrow.specs.Bit.{bit_at};
ghost use Rattle.formed.specs.Registry.{EntriesFormed};
ghost use Rattle.entries.specs.Entries.{PartOfLabels, trial_set};
ghost use Rattle.label_table.specs.LabelRows.{LabelRows};

use label_table::LabelTable;
use store::Words;

// Of the candidates, those that the part at `part` matches: narrowed by the rows of its labels, and tried if a label was not found.
// Kept: what the part and the table are to the memory is asked here and where it is called: a struct would hold the memory as a ghost, and
// each call would show beside it that it is lent the same.
pub fn matching(memory: &Words, table: &LabelTable, part: usize, candidates: [u64; 4]) -> [u64; 4]
    requires { EntriesFormed memory.now × PartOfLabels memory.now part × LabelRows memory.now 256 table.now }
    ensures { bit_at result ≡ trial_set memory.now part (bit_at candidates) }
{
    let mut left = candidates;
    let mut all = true;
    for word in entries::labels_of(memory, part) {
        let label = *word;
        let h = label_table::place(&table.labels, label);
        if table.labels[h] == label {
            let next = row_sets::both(left, table.rows[h]);
            left = next;
        } else {
            all = false;
        }
    }
    if all {
        return left;
    }
    trials::trial(memory, part, left)
}
