// Antialias: butterflies at the boundaries between subbands. The stage tests its samples and hands them to a step, which
// makes no test and takes any floats, infinite ones and NaNs too.

#![tactic(auto)]

ghost use Rattle.std.specs.Prelude.{◌≡◌, ℕ, ◌+◌, ◌*◌, ◌<◌, ◌≤◌};
ghost use Rattle.laws.specs.Lists.{at};
ghost use Rattle.tables.specs.Antialias.{cs as csTable, ca as caTable};
ghost use Rattle.refusals.specs.Refusals.{told};
ghost use Rattle.antialias.specs.Antialias.{boundaries, lower, upper, lower_after, upper_after, antialiased, AntialiasAnswer};

use refusals::{Refusal, refuse_if};
use side_info::BlockType;

// The eight pairs about boundary `sb`. Both results of a pair come from the old numbers.
fn butterflies(cs: &[f32; 8], ca: &[f32; 8], sb: usize, samples: &mut [f32; 576])
    requires { (cs.now ≡ csTable) × (ca.now ≡ caTable) × (0 < sb) × (sb < 32) }
    ensures lowers { (i : ℕ) → i < 8 → at samples.new (lower sb i) ≡ lower_after samples.old sb i }
    ensures uppers { (i : ℕ) → i < 8 → at samples.new (upper sb i) ≡ upper_after samples.old sb i }
    ensures others { (k : ℕ) → (18 * sb ≤ k + 8 → k < 18 * sb + 8 → ⊥) → at samples.new k ≡ at samples.old k }
{
    for i in 0..8 {
        let li = 18 * sb - 1 - i;
        let ui = 18 * sb + i;
        let a = samples[li];
        let b = samples[ui];
        let lb = a * cs[i] - b * ca[i];
        let ub = b * cs[i] + a * ca[i];
        samples[li] = lb;
        samples[ui] = ub;
    }
}

// The boundaries of a block type lie below this.
fn boundary_limit(kind: BlockType) -> usize
    ensures { result ≡ boundaries kind }
{
    match kind {
        BlockType::Short => 1,
        BlockType::Mixed => 2,
        BlockType::Long | BlockType::Start | BlockType::End => 32,
    }
}

// Antialias of any samples.
pub fn antialias_step(kind: BlockType, samples: &mut [f32; 576])
    ensures { samples.new ≡ antialiased kind samples.old }
{
    // the step's own copies: lent constants might overlap the samples, as far as the machine knows, and would be read again after each store
    let cs = tables::cs_table();
    let ca = tables::ca_table();
    for sb in 1..boundary_limit(kind) {
        butterflies(&cs, &ca, sb, samples);
    }
}

// Antialias of finite samples; others are refused.
pub fn antialias(kind: BlockType, samples: &mut [f32; 576]) -> Result<(), Refusal>
    ensures { AntialiasAnswer kind samples.old (told result) samples.new }
{
    refuse_if(!laws::all_finite(samples), Refusal::SamplesNotFinite)?;
    antialias_step(kind, samples);
    Ok(())
}
