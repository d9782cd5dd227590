// A run of numbers that have one gain, the numbers that stay as they are, their sizes and signs, and the sizes that the first part of the table does not have.
ghost use Rattle.std.specs.Prelude.{◌≡◌, cond, not, ℕ, ◌-◌, ◌<◌, ◌≤◌, T, ltb, pos, nat_abs, length, get_or};
ghost use Rattle.std.specs.Float.{binary32};
ghost use Rattle.std.specs.Float.Ieee.{mul, of_bits, nan_bits};
ghost use Rattle.laws.specs.Lists.{at, tab};
ghost use Rattle.power_table.specs.Power.{power};
ghost use Rattle.powers.specs.Powers.{signed, product};
ghost use Rattle.requantize.specs.Requantize.{number_at, raw_at};
ghost use Rattle.requantize.specs.Lookup.{Held, Holds};
ghost use Rattle.requantize.specs.Parts.{sizes as sizesOf, low_sizes};

// A lent table of powers, as patterns: entry x + zero is the value of x.
#[derive(Clone, Copy)]
pub struct Lookup<'a> {
    pub powers: &'a [u32],
    pub zero: i16,
}

impl Lookup<'_> {
    // The value of a number that the table has.
    fn value(self, x: i16) -> f32
        requires short { length self.powers.now ≤ 8207 }
        requires held { Held self.powers.now self.zero x }
        ensures { result ≡ signed x (power (nat_abs x)) }
    {
        f32::from_bits(self.powers[(x + self.zero) as usize])
    }
}

// Each number's value times the gain.
pub fn scaled(lookup: Lookup, gain: f32, numbers: &[i16], out: &mut [f32])
    requires holds { Holds lookup.powers.now lookup.zero numbers.now }
    requires out_len { length out.old ≡ length numbers.now }
    ensures { out.new ≡ tab (length numbers.now) (λ i. product (number_at numbers.now i) gain) }
{
    for i in 0..numbers.len() {
        out[i] = lookup.value(numbers[i]) * gain;
    }
}

// From position `from` on each number as it is.
pub fn raw_from(from: usize, numbers: &[i16], out: &mut [f32])
    requires from_in_bounds { from ≤ length numbers.now }
    requires out_len { length out.old ≡ length numbers.now }
    ensures { out.new ≡ tab (length numbers.now) (λ i. cond (ltb i from) (at out.old i) (raw_at numbers.now i)) }
{
    for i in from..numbers.len() {
        out[i] = numbers[i] as f32;
    }
}

// Each number's size.
pub fn sizes_of(numbers: &[i16; 576], sizes: &mut [i16; 576])
    requires { (i : ℕ) → i < 576 → nat_abs (number_at numbers.now i) < 8207 }
    ensures { sizes.new ≡ sizesOf numbers.now }
{
    for i in 0..576 {
        sizes[i] = numbers[i].abs();
    }
}

// Each float with its number's sign.
pub fn signs(numbers: &[i16; 576], out: &mut [f32; 576])
    ensures { out.new ≡ tab 576 (λ i. signed (number_at numbers.now i) (at out.old i)) }
{
    for i in 0..576 {
        let v = out[i];
        out[i] = if numbers[i] < 0 { -v } else { v };
    }
}

// Each number's size where the first part of the table has it, and else 1.
pub fn low_sizes(numbers: &[i16; 576], sizes: &mut [i16; 576])
    requires { (i : ℕ) → i < 576 → nat_abs (number_at numbers.now i) < 8207 }
    ensures { sizes.new ≡ low_sizes numbers.now }
{
    for i in 0..576 {
        let n = numbers[i].abs();
        sizes[i] = if n < 4104 { n } else { 1 };
    }
}

// Where each number's power stands in the second part: at place 0 where the first part has it.
pub fn high_places(numbers: &[i16; 576], places: &mut [i16; 576])
    requires { (i : ℕ) → i < 576 → nat_abs (number_at numbers.now i) < 8207 }
    ensures { places.new ≡ tab 576 (λ i. pos (nat_abs (number_at numbers.now i) - 4103)) }
{
    for i in 0..576 {
        places[i] = numbers[i].abs().max(4103) - 4103;
    }
}

// Each float times the power at its place.
pub fn times(powers: &[u32; 4104], places: &[i16; 576], out: &mut [f32; 576])
    requires no_nan { (k : ℕ) → k < 4104 → T (not (nan_bits binary32 (get_or powers.now k 0))) }
    requires places_fit { (i : ℕ) → i < 576 → (nat_abs (number_at places.now i) < 4104) × (number_at places.now i ≡ pos (nat_abs (number_at places.now i))) }
    ensures { out.new ≡ tab 576 (λ i. mul binary32 (of_bits binary32 (get_or powers.now (nat_abs (number_at places.now i)) 0)) (at out.old i)) }
{
    for i in 0..576 {
        out[i] = f32::from_bits(powers[places[i] as usize]) * out[i];
    }
}
