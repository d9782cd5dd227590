// What every stage stands on: whether floats are finite, the bits of a float, and a row of products added to sums. The laws on sums, the
// largest of some numbers, lists by a rule, tables and checks are in specs/ and proofs/.

#![tactic(auto)]

ghost use Rattle.std.specs.Prelude.{◌≡◌, ◌≤◌, length};
ghost use Rattle.std.specs.Float.Ieee.{to_bits, of_bits, add, mul};
ghost use Rattle.std.specs.Float.{binary32};
ghost use Rattle.laws.specs.Checks.{all_at_most};
ghost use Rattle.laws.specs.Finite.{finite, all_finite};
ghost use Rattle.laws.specs.Lists.{at, tab};

// Neither infinite nor a NaN.
pub fn is_finite(x: f32) -> bool
    ensures { result ≡ finite x }
{
    let top = f32::from_bits(0x7f800000);
    if -top < x { x < top } else { false }
}

// Whether each element is finite. It goes to the end whatever it finds, since a loop with no way out in its middle takes
// several elements at once; `bad` is as wide as a float for the same reason, and `all` would stop at the first.
pub fn all_finite(xs: &[f32]) -> bool
    ensures { result ≡ all_finite xs.now }
{
    let mut bad: u32 = 0;
    for x in xs {
        if !is_finite(*x) {
            bad = 1;
        }
    }
    bad == 0
}

// Whether each element is at most `most`. It goes to the end too.
pub fn all_at_most(xs: &[u8], most: u8) -> bool
    ensures { result ≡ all_at_most most xs.now }
{
    let mut bad: u32 = 0;
    for x in xs {
        if most < *x {
            bad = 1;
        }
    }
    bad == 0
}

// The bits of any float: every NaN has the one pattern 0x7fc00000.
pub fn bits_of(x: f32) -> u32
    ensures { result ≡ to_bits binary32 x }
{
    if x != x { 0x7fc00000 } else { f32::to_bits(x) }
}

// The float of any bits: every NaN pattern gives a NaN.
pub fn float_of(bits: u32) -> f32
    ensures { result ≡ of_bits binary32 bits }
{
    let size = bits % 0x8000_0000;
    if 0x7f80_0000 < size {
        return 0.0f32 / 0.0f32;
    }
    f32::from_bits(bits)
}

// Adds x times each number of a row to the sum at its place. Row after row, and not sum after sum: each sum still takes its
// products in the rows' order, and the machine adds to several sums at once. The place counts in both slices.
pub fn add_scaled(x: f32, row: &[f32], sums: &mut [f32])
    requires { length sums.old ≤ length row.now }
    ensures { sums.new ≡ tab (length sums.old) (λ p. add binary32 (at sums.old p) (mul binary32 x (at row.now p))) }
{
    for p in 0..sums.len() {
        sums[p] += x * row[p];
    }
}
