// Numbers as text, in decimal and in hex, and the line for a refused record.

#![tactic(auto)]

ghost use Rattle.std.specs.Prelude.{◌≡◌, ◌++◌, ◌+◌, ◌<◌, ◌≤◌, length, drop};
ghost use Rattle.text.specs.Digits.{digit, digits, digit_count, decimal, hex};
ghost use Rattle.text.specs.Line.{refusal_line, stored};

// Bytes stored from a place on. The answer is the place after them. (The place goes from call to call by hand: a struct of the
// lent slice and the place says in each method that the two fit, and its text says no more.)
fn put_bytes(from: &[u8], at: usize, to: &mut [u8]) -> usize
    requires { at + length from.now ≤ length to.old }
    ensures place { result ≡ at + length from.now }
    ensures text { to.new ≡ stored from.now at to.old }
{
    let end = at + from.len();
    to[at..end].copy_from_slice(from);
    end
}

// The character of a digit: 0 to 9, and a to f from 10 on.
fn character(d: u8) -> u8
    requires { d < 16 }
    ensures { result ≡ digit d }
{
    if d < 10 { b'0' + d } else { b'a' + (d - 10) }
}

// The last `count` digits of n, from a place on, the last of them first: what is left of n then says the ones before it.
// The answer is the place after them.
fn put_digits(base: u64, count: usize, n: u64, at: usize, to: &mut [u8]) -> usize
    requires { (0 < base) × (base ≤ 16) × (at + count ≤ length to.old) }
    ensures place { result ≡ at + count }
    ensures text { to.new ≡ stored (digits base count n) at to.old }
{
    let end = at + count;
    let mut rest = n;
    for place in (at..end).rev() {
        to[place] = character((rest % base) as u8);
        rest /= base;
    }
    end
}

// How many decimal digits n has: one, and one more for each tenth taken of what is at least 10.
fn digit_count(n: u64) -> usize
    ensures { result ≡ digit_count n }
{
    let mut rest = n;
    let mut count = 1;
    // as long as a tenth can be taken: no index
    while 10 <= rest {
        rest /= 10;
        count += 1;
    }
    count
}

// A number in decimal, from a place on. The answer is the place after it.
pub fn put_decimal(n: u64, at: usize, to: &mut [u8]) -> usize
    requires { at + length (decimal n) ≤ length to.old }
    ensures place { result ≡ at + length (decimal n) }
    ensures text { to.new ≡ stored (decimal n) at to.old }
{
    put_digits(10, digit_count(n), n, at, to)
}

// A word as eight hex digits, from a place on. The answer is the place after them.
pub fn put_hex(word: u32, at: usize, to: &mut [u8]) -> usize
    requires { at + 8 ≤ length to.old }
    ensures place { result ≡ at + 8 }
    ensures text { to.new ≡ stored (hex word) at to.old }
{
    put_digits(16, 8, u64::from(word), at, to)
}

// The line `record N refused K`, at the front of `to`. The answer is its length; the rest of `to` is as it was. Two numbers of
// at most 20 and 3 digits make it 40 bytes at most.
pub fn refusal_line(n: u64, k: u8, to: &mut [u8; 40]) -> usize
    ensures length { result ≡ length (refusal_line n k) }
    ensures text { to.new ≡ refusal_line n k ++ drop result to.old }
{
    let number_at = put_bytes(b"record ", 0, to);
    let word_at = put_decimal(n, number_at, to);
    let refusal_at = put_bytes(b" refused ", word_at, to);
    let end_at = put_decimal(u64::from(k), refusal_at, to);
    put_bytes(b"\n", end_at, to)
}
