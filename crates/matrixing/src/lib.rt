// Matrixing: the block of 64 of each of a granule's 18 slots, all in one queue with the lent blocks after them.

#![tactic(auto)]

ghost use Rattle.std.specs.Prelude.{◌≡◌, ◌++◌, ◌-◌, ◌/◌, ◌%◌, ◌<◌, length};
ghost use Rattle.laws.specs.Lists.{at, tab};
ghost use Rattle.silence.specs.Silence.{used_subbands};
ghost use Rattle.synthesis_tables.specs.Matrixing.{matrixing as matrixingTable};
ghost use Rattle.matrixing.specs.Halves.{half_place, unfolded};
ghost use Rattle.matrixing.specs.Matrixing.{slot_samples, matrixed_at, matrixed};

use laws::add_scaled;

// The sums of slot n at the places that the others mirror: 0 to 15, and then 48 to 63. Samples of the subbands from `used` on are zeros,
// which add nothing. A row of the table is lent: a copy of it would take longer than the products.
fn half_sums(matrixing: &[[f32; 64]; 32], samples: &[f32; 576], used: usize, n: usize) -> [f32; 32]
    requires { (matrixing.now ≡ matrixingTable) × (used ≡ used_subbands samples.now) × (n < 18) }
    ensures { result ≡ tab 32 (λ i. matrixed_at (slot_samples samples.now n) (half_place i)) }
{
    let mut sums = [0.0f32; 32];
    for j in 0..used {
        let x = samples[18 * j + n];
        let row = &matrixing[j];
        add_scaled(x, &row[0..16], &mut sums[0..16]);
        add_scaled(x, &row[48..64], &mut sums[16..32]);
    }
    sums
}

// Place 16 of slot n: the table has +0.0 there.
fn middle_sum(samples: &[f32; 576], n: usize) -> f32
    requires { n < 18 }
    ensures { result ≡ matrixed_at (slot_samples samples.now n) 16 }
{
    let mut sum = 0.0f32;
    for j in 0..32 {
        sum += samples[18 * j + n] * 0.0;
    }
    sum
}

// The same: +0.0 where the sum at place 0 is finite, for then each sample is.
fn middle(front: f32, samples: &[f32; 576], n: usize) -> f32
    requires { (front ≡ matrixed_at (slot_samples samples.now n) 0) × (n < 18) }
    ensures { result ≡ matrixed_at (slot_samples samples.now n) 16 }
{
    if laws::is_finite(front) {
        0.0
    } else {
        middle_sum(samples, n)
    }
}

// A slot's 64 places from the sums. `0.0 -` and not `-`: a sum of +0.0 has +0.0 as its mirror image.
fn unfold(sums: &[f32; 32], middle: f32, block: &mut [f32])
    requires { length block.old ≡ 64 }
    ensures { block.new ≡ tab 64 (unfolded sums.now middle) }
{
    block[0..16].copy_from_slice(&sums[0..16]);
    block[16] = middle;
    for i in 0..16 {
        block[17 + i] = 0.0 - sums[15 - i];
    }
    for i in 0..15 {
        block[33 + i] = sums[31 - i];
    }
    block[48..64].copy_from_slice(&sums[16..32]);
}

// All blocks in one queue: those of the 18 slots, the newest in front, and after them the lent ones. (The table alone is lent, and not the
// struct of both: the window has no part in it, and who calls it need not have one.)
pub fn queue_blocks(
    matrixing: &[[f32; 64]; 32],
    samples: &[f32; 576],
    blocks: &[f32; 1024],
    queue: &mut [f32; 2176],
)
    requires { matrixing.now ≡ matrixingTable }
    ensures { queue.new ≡ tab 1152 (λ q. at (matrixed (slot_samples samples.now (17 - q / 64))) (q % 64)) ++ blocks.now }
{
    let used = silence::used_subbands(samples);
    for b in 0..18 {
        let n = 17 - b;
        let sums = half_sums(matrixing, samples, used, n);
        let m = middle(sums[0], samples, n);
        unfold(&sums, m, &mut queue[64 * b..64 * b + 64]);
    }
    queue[1152..].copy_from_slice(blocks);
}
