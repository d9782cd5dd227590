// Frequency inversion: the odd places of odd subbands change their sign, by the highest bit of their patterns. The
// stage tests its samples and hands them to a step, which refuses none and takes any floats, infinite ones and NaNs too.
//
// A NaN's bits cannot be read, and a test of each number by itself takes long. So a subband is tested as a whole and turned
// as a whole, and gone through number by number only where a NaN is in it.

#![tactic(auto)]

ghost use Rattle.std.specs.Prelude.{false, true, cond, ◌≡◌, ℕ, ◌+◌, ◌*◌, ◌/◌, ◌%◌, ◌<◌, ◌≤◌};
ghost use Rattle.std.specs.Float.Ieee.{is_nan, neg};
ghost use Rattle.laws.specs.Lists.{at, tab};
ghost use Rattle.refusals.specs.Refusals.{told};
ghost use Rattle.inversion.specs.Inversion.{turned_where, inverted, InversionAnswer};

use refusals::{Refusal, refuse_if};

// ---- one number

fn sign_bit(turn: bool) -> u32
    ensures { result ≡ cond turn 2147483648 0 }
{
    if turn { 0x8000_0000 } else { 0 }
}

// x, or with `turn` the number whose pattern differs from it in the highest bit alone.
fn turned(x: f32, turn: bool) -> f32
    requires { is_nan x ≡ false }
    ensures { result ≡ cond turn (neg x) x }
{
    f32::from_bits(f32::to_bits(x) ^ sign_bit(turn))
}

// ---- number by number

// The nine odd places of subband `sb`. A NaN is left as it is.
fn negate_odd(sb: usize, samples: &mut [f32; 576])
    requires { sb < 32 }
    ensures { samples.new ≡ tab 576 (turned_where (λ k. k / 18) sb samples.old) }
{
    for i in (1..18).step_by(2) {
        let n = 18 * sb + i;
        let x = samples[n];
        if !x.is_nan() {
            samples[n] = turned(x, true);
        }
    }
}

// ---- one odd subband: the sixteen places from `from` on, and the odd place left over

// True only if no NaN is among the sixteen numbers from `n` on. It goes to the end whatever it finds and takes two numbers
// a turn, each read before the test, so that one comparison of the machine tests four pairs.
fn sixteen_clear(n: usize, samples: &[f32; 576]) -> bool
    requires { n + 16 ≤ 576 }
    ensures { result ≡ true → (i : ℕ) → i < 16 → is_nan (at samples.now (n + i)) ≡ false }
{
    let mut bad: u32 = 0;
    for i in 0..8 {
        let a = samples[n + i];
        let b = samples[n + i + 8];
        if a.is_nan() || b.is_nan() {
            bad = 1;
        }
    }
    bad == 0
}

// The odd place that the sixteen leave: 17 where they begin at place 1, and 1 where they begin at place 2.
fn left_over(from: usize) -> usize
    requires { (0 < from) × (from < 3) }
    ensures { result + 16 * from ≡ 33 }
{
    33 - 16 * from
}

// True only if no NaN is among places 1 to 17 of subband `sb`.
fn subband_clear(sb: usize, from: usize, samples: &[f32; 576]) -> bool
    requires { (sb < 32) × (0 < from) × (from < 3) }
    ensures { result ≡ true → (p : ℕ) → 0 < p → p < 18 → is_nan (at samples.now (18 * sb + p)) ≡ false }
{
    let n = 18 * sb;
    sixteen_clear(n + from, samples) && !samples[n + left_over(from)].is_nan()
}

// The nine odd places of subband `sb`, which has no NaN. Even ones are written too, as they are, so that the machine turns
// four neighbours at once.
fn turn_subband(sb: usize, from: usize, samples: &mut [f32; 576])
    requires sb_bound { (sb < 32) × (0 < from) × (from < 3) }
    requires by_index { (p : ℕ) → 0 < p → p < 18 → is_nan (at samples.old (18 * sb + p)) ≡ false }
    ensures { samples.new ≡ tab 576 (turned_where (λ k. k / 18) sb samples.old) }
{
    let n = 18 * sb + from;
    for i in 0..16 {
        let k = n + i;
        samples[k] = turned(samples[k], k % 2 == 1);
    }
    let k = 18 * sb + left_over(from);
    samples[k] = turned(samples[k], true);
}

// The nine odd places of subband `sb`, whatever floats they hold.
fn one_subband(sb: usize, from: usize, samples: &mut [f32; 576])
    requires { (sb < 32) × (0 < from) × (from < 3) }
    ensures { samples.new ≡ tab 576 (turned_where (λ k. k / 18) sb samples.old) }
{
    if subband_clear(sb, from, samples) {
        turn_subband(sb, from, samples);
    } else {
        negate_odd(sb, samples);
    }
}

// ---- the stage

// Eight subbands: `sb`, `sb` + 4, .. `sb` + 28. Their sixteen places begin at place 1 or at place 2, by `sb`: if that were
// one place for all, the compiler would see which ones are even, and turn the odd ones one by one.
fn eight_subbands(sb: usize, samples: &mut [f32; 576])
    requires { sb < 4 }
    ensures { samples.new ≡ tab 576 (turned_where (λ k. k / 18 % 4) sb samples.old) }
{
    let from = 1 + sb / 2;
    for j in 0..8 {
        one_subband(sb + 4 * j, from, samples);
    }
}

// The sixteen odd subbands: 1, 5, .. 29 and then 3, 7, .. 31. Any samples.
pub fn inversion_step(samples: &mut [f32; 576])
    ensures { samples.new ≡ inverted samples.old }
{
    for sb in [1, 3] {
        eight_subbands(sb, samples);
    }
}

// Inversion of finite samples; others are refused.
pub fn frequency_inversion(samples: &mut [f32; 576]) -> Result<(), Refusal>
    ensures { InversionAnswer samples.old (told result) samples.new }
{
    refuse_if(!laws::all_finite(samples), Refusal::SamplesNotFinite)?;
    inversion_step(samples);
    Ok(())
}
