// The test of a part: a header, its labels and the zeros after them.
#![tactic(auto)]

ghost use Rattle.std.specs.Prelude.{◌≡◌, ◌-◌, ◌≤◌, ◌<◌, length};
ghost use Rattle.formed.specs.Tests.{◌and◌, labels_between, zeros as all_zero, part_ok};

pub fn zeros(words: &[u64]) -> bool
    ensures { result ≡ all_zero words.now 0 (length words.now) }
{
    words.iter().all(|w| *w == 0)
}

// The words after the header: labels of one list before `end`, and zeros from there on.
// Kept: one loop over all words, by the index: a slot has the same number of words each time, so its labels are compiled word by word,
// with no count, as they are not in two loops whose ends the header decides.
fn words_ok(part: &[u64], end: usize) -> bool
    requires { (0 < end) × (end ≤ length part.now) }
    ensures { result ≡ (labels_between part.now 1 end and all_zero part.now end (length part.now)) }
{
    let mut last = 0;
    for i in 1..part.len() {
        let w = part[i];
        if end <= i {
            if w != 0 {
                return false;
            }
            continue;
        }
        if !word_tests::follows(last, w) {
            return false;
        }
        last = w / 65536;
    }
    last <= 64
}

// A part with its header first: as many labels as the header says, of one less than its words at most.
pub fn part_ok(part: &[u64]) -> bool
    requires { 0 < length part.now }
    ensures { result ≡ part_ok part.now 0 (length part.now - 1) }
{
    // Kept: std has no `From<u64>` for `usize`, and `try_from` gives an error that never comes.
    let end = part[0] as usize;
    if end == 0 {
        return false;
    }
    if part.len() < end {
        return false;
    }
    words_ok(part, end)
}
