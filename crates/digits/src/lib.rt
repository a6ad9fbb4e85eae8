// Words and numbers, put at the start of a buffer.
#![tactic(auto)]

ghost use Rattle.std.specs.Prelude.{◌≡◌, ◌+◌, ◌≤◌, ◌<◌, length};
ghost use Rattle.buffer.specs.Buffer.{Puts};
ghost use Rattle.digits.specs.Decimal.{decimal, ended};

// Puts a word and then a byte, and answers how many bytes those are.
pub fn put_word(out: &mut [u8], word: &[u8], end: u8) -> usize
    requires { length word.now < length out.old }
    ensures puts { Puts out.old 0 (ended word.now end) out.new result }
    ensures value { result ≡ length word.now + 1 }
{
    let n = word.len();
    out[..n].copy_from_slice(word);
    out[n] = end;
    n + 1
}

fn digit(n: u64) -> u8
    requires { n < 10 }
    ensures { result ≡ 48 + n }
{
    // Kept: a test of the number, as `try_from` makes, would never fail here.
    b'0' + n as u8
}

// Puts a number in decimal. Numbers of up to three digits, nearly all of them, are put straight.
#[tactic(auto, using(crate::proofs::DecimalLaws::decimals))]
fn put_digits(out: &mut [u8], n: u64) -> usize
    requires { length (decimal n) ≤ length out.old }
    ensures { Puts out.old 0 (decimal n) out.new result }
{
    if n < 10 {
        out[0] = digit(n);
        return 1;
    }
    if n < 100 {
        out[0] = digit(n / 10);
        out[1] = digit(n % 10);
        return 2;
    }
    if n < 1000 {
        out[0] = digit(n / 100);
        out[1] = digit(n / 10 % 10);
        out[2] = digit(n % 10);
        return 3;
    }
    let last = put_digits(out, n / 10);
    out[last] = digit(n % 10);
    last + 1
}

// Puts a number in decimal and then a byte.
#[tactic(auto, using(crate::proofs::DecimalLaws::within_20))]
pub fn put_decimal(out: &mut [u8], n: u64, end: u8) -> usize
    requires { length (decimal n) < length out.old }
    ensures puts { Puts out.old 0 (ended (decimal n) end) out.new result }
    ensures value { result ≡ length (decimal n) + 1 }
    ensures lower_bound { (0 < result) × (result ≤ 21) }
{
    let digits = put_digits(out, n);
    out[digits] = end;
    digits + 1
}
