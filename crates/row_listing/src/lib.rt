// The findings of a row, put into a list, each as one number.
#![tactic(auto)]

ghost use Rattle.std.specs.Prelude.{map, ◌+◌, ◌<◌, length, take};
ghost use Rattle.bitrow.specs.Bit.{bit, bit_at};
ghost use Rattle.buffer.specs.Buffer.{Puts};
ghost use Rattle.model.specs.Kinds.{kind_number};
ghost use Rattle.model.specs.Findings.{finding_code};
ghost use Rattle.row_listing.specs.Listing.{members, row_findings};

use model::Kind;
use row_members::Bits;

// Puts base + i for the bits i of a word, the lowest first, while there is room; answers how many.
fn put_bits(list: &mut [u64], base: u64, word: u64) -> usize
    requires { base < 281474976710656 }
    ensures { Puts list.old 0 (take (length list.old) (map (λ i. base + i) (members (bit word) 0 64))) list.new result }
{
    let mut count = 0;
    for i in Bits(word) {
        if count == list.len() {
            return count;
        }
        list[count] = base + u64::from(i);
        count += 1;
    }
    count
}

// Puts the findings at a of the kind of this number, whose row this is, while there is room; answers how many.
// Kept: `number: usize`: the promise is of any number (a rule), also of one that is no kind; of a `Kind` it is `put_row`.
pub fn put_row_numbered(list: &mut [u64], number: usize, a: usize, row: [u64; 4]) -> usize
    requires { (number < 8) × (a < 256) }
    ensures { Puts list.old 0 (take (length list.old) (map finding_code (row_findings number a (bit_at row)))) list.new result }
{
    // Kept: `number as u64`, `a as u64`; std has no `From<usize>` for u64, and a `TryFrom` would add a refusal that cannot come.
    // And the base of each word beside the `for`: a `zip` with the bases would be no plainer, since the law is over the words, and a zip
    // yields pairs.
    let mut base = number as u64 * 4294967296 + a as u64 * 65536;
    let mut count = 0;
    for word in row {
        count += put_bits(&mut list[count..], base, word);
        base += 64;
    }
    count
}

// Puts the findings of one kind at a, whose row this is, while there is room; answers how many.
pub fn put_row(list: &mut [u64], kind: Kind, a: usize, row: [u64; 4]) -> usize
    requires { a < 256 }
    ensures { Puts list.old 0 (take (length list.old) (map finding_code (row_findings (kind_number kind) a (bit_at row)))) list.new result }
{
    put_row_numbered(list, usize::from(kind.number()), a, row)
}
