// The lines of findings, put at the start of a buffer: of those in a list, and of those of a row. In a list of findings most have the kind
// and a of the one before, and those of a row all do: the text of these two is made once, and begins each of their lines.
#![tactic(auto)]

ghost use Rattle.std.specs.Prelude.{◌≡◌, map, ◌++◌, ◌+◌, ◌*◌, ◌/◌, ◌%◌, ◌≤◌, ◌<◌, length, All};
ghost use Rattle.bitrow.specs.Bit.{bit, bit_at};
ghost use Rattle.bitrow.specs.Set.{size};
ghost use Rattle.buffer.specs.Buffer.{Puts};
ghost use Rattle.model.specs.Kinds.{kind_number};
ghost use Rattle.model.specs.Findings.{finding_code};
ghost use Rattle.row_listing.specs.Listing.{members, row_findings};
ghost use Rattle.digits.specs.Decimal.{decimal, ended};
ghost use Rattle.text.specs.Text.{newline};
ghost use Rattle.text.specs.Lines.{code_lines};
ghost use Rattle.finding_lines.specs.Fronts.{front_text, HoldsFront};
ghost use Rattle.finding_lines.specs.Codes.{ShortCode};

use model::Kind;
use row_members::Bits;

mod ends;

// What a line begins with: a kind and an a, with a space after each. Since the kind has one digit and a one to three, these are four to
// six bytes: the first four and the last four, some of which are the same.
#[derive(Clone, Copy)]
struct Front {
    // kind * 65536 + a
    pair: u64,
    length: usize,
    first: [u8; 4],
    last: [u8; 4],
}

// The front of a kind and an a, given as one number, kind * 65536 + a.
fn front_of(pair: u64) -> Front
    requires { (pair / 65536 < 10) × (pair % 65536 < 256) }
    ensures pair_value { result.pair ≡ pair }
    ensures holds { HoldsFront result }
{
    let mut text = [0; 8];
    let kind = digits::put_decimal(&mut text, pair / 65536, b' ');
    let length = kind + digits::put_decimal(&mut text[kind..], pair % 65536, b' ');
    let (mut first, mut last) = ([0; 4], [0; 4]);
    first.copy_from_slice(&text[..4]);
    last.copy_from_slice(&text[length - 4..length]);
    Front {
        pair,
        length,
        first,
        last,
    }
}

// The front of a kind and an a, given as one number: that of the last line, where it has the same.
fn next_front(last: Front, pair: u64) -> Front
    requires { HoldsFront last × (pair / 65536 < 10) × (pair % 65536 < 256) }
    ensures pair_value { result.pair ≡ pair }
    ensures holds { HoldsFront result }
{
    if last.pair == pair {
        return last;
    }
    front_of(pair)
}

// Puts a front: the first four bytes, then the last four.
fn put_front(out: &mut [u8], front: &Front) -> usize
    requires { HoldsFront front.now × (front.now.length ≤ length out.old) }
    ensures puts { Puts out.old 0 (front_text front.now.pair) out.new result }
    ensures upper_bound { result ≤ 6 }
{
    let length = front.length;
    out[..4].copy_from_slice(&front.first);
    out[length - 4..length].copy_from_slice(&front.last);
    length
}

// Puts the line of a finding of this front.
fn put_line(out: &mut [u8], front: &Front, b: u64) -> usize
    requires { HoldsFront front.now × (b < 256) × (10 ≤ length out.old) }
    ensures puts { Puts out.old 0 (front_text front.now.pair ++ ended (decimal b) newline) out.new result }
    ensures upper_bound { result ≤ 10 }
{
    let put = put_front(out, front);
    put + ends::put_end(&mut out[put..], b)
}

// Puts the lines of findings, each given as one number.
pub fn put_findings(out: &mut [u8], codes: &[u64]) -> usize
    requires { (10 * length codes.now ≤ length out.old) × All ShortCode codes.now }
    ensures { Puts out.old 0 (code_lines codes.now) out.new result }
{
    let mut front = front_of(0);
    let mut put = 0;
    for code in codes {
        front = next_front(front, code / 65536);
        put += put_line(&mut out[put..], &front, code % 65536);
    }
    put
}

// Puts the lines of the findings of this front whose b are base + i for the bits i of a word.
fn put_word_lines(out: &mut [u8], front: &Front, base: u64, word: u64) -> usize
    requires { HoldsFront front.now × (base ≤ 192) × (10 * length (members (bit word) 0 64) ≤ length out.old) }
    ensures puts { Puts out.old 0 (code_lines (map (λ i. front.now.pair * 65536 + base + i) (members (bit word) 0 64))) out.new result }
    ensures upper_bound { result ≤ 10 * length (members (bit word) 0 64) }
{
    let mut put = 0;
    for i in Bits(word) {
        put += put_line(&mut out[put..], front, base + u64::from(i));
    }
    put
}

// Puts the lines of the findings of one kind at a, whose row this is.
pub fn put_row_lines(out: &mut [u8], kind: Kind, a: usize, row: [u64; 4]) -> usize
    requires { (a < 256) × (10 * size (bit_at row) 256 ≤ length out.old) }
    ensures puts { Puts out.old 0 (code_lines (map finding_code (row_findings (kind_number kind) a (bit_at row)))) out.new result }
    ensures upper_bound { result ≤ 10 * size (bit_at row) 256 }
{
    // Kept: `a as u64`; std has no `From<usize>` for u64, and a `TryFrom` would add a refusal that cannot come.
    let front = front_of(u64::from(kind.number()) * 65536 + a as u64);
    let mut base = 0;
    let mut put = 0;
    for word in row {
        put += put_word_lines(&mut out[put..], &front, base, word);
        base += 64;
    }
    put
}
