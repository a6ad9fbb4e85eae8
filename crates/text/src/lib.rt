// Lines of text, put at the start of a buffer.
#![tactic(auto)]

ghost use Rattle.std.specs.Prelude.{◌+◌, ◌*◌, ◌/◌, ◌≤◌, ◌<◌, length};
ghost use Rattle.buffer.specs.Buffer.{Puts};
ghost use Rattle.block.specs.Refusal.{reason_number};
ghost use Rattle.text.specs.Text.{named};
ghost use Rattle.model.specs.Calls.{pairs_of};
ghost use Rattle.text.specs.Lines.{refused_line, pair_line, pair_lines, counts_line};

use block::Refusal;

// Puts a word, a number, and then a byte.
#[tactic(auto, using(crate::proofs::LineLaws::pieces), unfolding(crate::specs::Text::named))]
fn put_named(out: &mut [u8], word: &[u8], n: u64, end: u8) -> usize
    requires { length word.now + 22 ≤ length out.old }
    ensures puts { Puts out.old 0 (named word.now n end) out.new result }
    ensures upper_bound { result ≤ length word.now + 22 }
{
    let name = digits::put_word(out, word, b' ');
    name + digits::put_decimal(&mut out[name..], n, end)
}

// Puts the line of the block with this number, refused with this number at this position.
// Kept: the C interface: the list of a batch's answers holds numbers, as C is answered, and so the line is put from numbers. And the
// room for it as a clause, as at `closing::tell_counts`.
#[tactic(auto, using(crate::proofs::LineLaws::pieces), unfolding(crate::specs::Lines::refused_line))]
pub fn put_refused(out: &mut [u8], block: u64, number: u64, position: u64) -> usize
    requires { 72 ≤ length out.old }
    ensures puts { Puts out.old 0 (refused_line block (number, position)) out.new result }
    ensures upper_bound { result ≤ 72 }
{
    let mut put = put_named(out, b"REFUSED", block, b' ');
    put += digits::put_decimal(&mut out[put..], number, b' ');
    put + digits::put_decimal(&mut out[put..], position, b'\n')
}

// Puts the line of the block with this number, refused so.
// Kept: the `as`: no `From` goes from `usize` to `u64`.
pub fn put_refusal(out: &mut [u8], block: u64, refusal: Refusal) -> usize
    requires { 72 ≤ length out.old }
    ensures puts { Puts out.old 0 (refused_line block (reason_number refusal.reason, refusal.position)) out.new result }
    ensures upper_bound { result ≤ 72 }
{
    let number = u64::from(refusal.reason.number());
    put_refused(out, block, number, refusal.position as u64)
}

// Puts the line of the block with this number, where the first number of its answer is a refusal.
// Kept: the C interface, as at `put_refused`.
#[tactic(auto, using(crate::proofs::LineLaws::pieces, crate::proofs::LineLaws::answers))]
fn put_answer(out: &mut [u8], block: u64, number: u16, position: u16) -> usize
    requires { 72 ≤ length out.old }
    ensures puts { Puts out.old 0 (pair_line block (number, position)) out.new result }
    ensures upper_bound { result ≤ 72 }
{
    if number == 0 {
        return 0;
    }
    put_refused(out, block, u64::from(number), u64::from(position))
}

// Puts the line of each block that was refused, of those whose answers are these, two numbers for each: 0 and a slot, or the refusal
// and the position at fault. The first is block n + 1.
// Kept: a counter beside the `for`: `enumerate` would give a usize, which no `From` makes a u64, and a range from n + 1 on would step past
// the largest number at its last block.
pub fn put_refusals(out: &mut [u8], answers: &[u16], n: u64) -> usize
    requires { (72 * (length answers.now / 2) ≤ length out.old) × (n + length answers.now / 2 ≤ 18446744073709551615) }
    ensures { Puts out.old 0 (pair_lines n (pairs_of answers.now)) out.new result }
{
    let mut put = 0;
    let mut block = n;
    for answer in answers.chunks_exact(2) {
        block += 1;
        put += put_answer(&mut out[put..], block, answer[0], answer[1]);
    }
    put
}

// Puts the line of the counts.
#[tactic(auto, using(crate::proofs::LineLaws::pieces), unfolding(crate::specs::Lines::counts_line))]
pub fn put_counts(out: &mut [u8], containers: u64, policies: u64, pairs: u64) -> usize
    requires { 128 ≤ length out.old }
    ensures puts { Puts out.old 0 (counts_line containers policies pairs) out.new result }
    ensures upper_bound { result ≤ 128 }
{
    let mut put = put_named(out, b"CONTAINERS", containers, b' ');
    put += put_named(&mut out[put..], b"POLICIES", policies, b' ');
    put + put_named(&mut out[put..], b"PAIRS", pairs, b'\n')
}
