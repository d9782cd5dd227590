// Numbers out of bytes and into bytes, little endian, from a place on.

#![tactic(auto)]

ghost use Rattle.std.specs.Prelude.{◌≡◌, ◌+◌, ◌*◌, ◌/◌, ◌≤◌, min, length};
ghost use Rattle.little_endian.specs.Bytes.{half_at, word_at, signed_at, float_at, bytes_from, signeds_from, floats_from, half_put, word_put, floats_put};

pub fn half_at(s: &[u8], at: usize) -> u16
    requires { at + 2 ≤ length s.now }
    ensures { result ≡ half_at s.now at }
{
    u16::from_le_bytes([s[at], s[at + 1]])
}

pub fn word_at(s: &[u8], at: usize) -> u32
    requires { at + 4 ≤ length s.now }
    ensures { result ≡ word_at s.now at }
{
    u32::from_le_bytes([s[at], s[at + 1], s[at + 2], s[at + 3]])
}

pub fn signed_at(s: &[u8], at: usize) -> i16
    requires { at + 2 ≤ length s.now }
    ensures { result ≡ signed_at s.now at }
{
    half_at(s, at).cast_signed()
}

pub fn float_at(s: &[u8], at: usize) -> f32
    requires { at + 4 ≤ length s.now }
    ensures { result ≡ float_at s.now at }
{
    laws::float_of(word_at(s, at))
}

// As many bytes as `to` has.
pub fn bytes_from(s: &[u8], at: usize, to: &mut [u8])
    requires { at + length to.old ≤ length s.now }
    ensures { to.new ≡ bytes_from s.now at (length to.old) }
{
    to.copy_from_slice(&s[at..at + to.len()]);
}

// As many signed numbers as `to` has. (One function for these and floats takes a trait of what bytes say, with a width and a
// rule of its own: that is longer than the two.)
pub fn signeds_from(s: &[u8], at: usize, to: &mut [i16])
    requires { at + 2 * length to.old ≤ length s.now }
    ensures { to.new ≡ signeds_from s.now at (length to.old) }
{
    for (i, x) in to.iter_mut().enumerate() {
        *x = signed_at(s, at + 2 * i);
    }
}

// As many floats as `to` has.
pub fn floats_from(s: &[u8], at: usize, to: &mut [f32])
    requires { at + 4 * length to.old ≤ length s.now }
    ensures { to.new ≡ floats_from s.now at (length to.old) }
{
    for (i, x) in to.iter_mut().enumerate() {
        *x = float_at(s, at + 4 * i);
    }
}

// The two bytes of a half, the low one first, from a place on.
pub fn put_half(half: u16, at: usize, to: &mut [u8])
    requires { at + 2 ≤ length to.old }
    ensures { to.new ≡ half_put half at to.old }
{
    to[at..at + 2].copy_from_slice(&half.to_le_bytes());
}

// The four bytes of a word, the low ones first, from a place on.
pub fn put_word(word: u32, at: usize, to: &mut [u8])
    requires { at + 4 ≤ length to.old }
    ensures { to.new ≡ word_put word at to.old }
{
    to[at..at + 4].copy_from_slice(&word.to_le_bytes());
}

// The bits of floats as bytes, as many whole floats as both have. What is left of `to` is as it was.
pub fn floats_to(from: &[f32], to: &mut [u8])
    ensures { to.new ≡ floats_put (min (length from.now) (length to.old / 4)) from.now to.old }
{
    let count = from.len().min(to.len() / 4);
    for i in 0..count {
        put_word(laws::bits_of(from[i]), 4 * i, to);
    }
}
