// Hybrid synthesis: each subband transformed, its first half added to the stored overlap, its second half stored. The
// stage tests its samples and overlap and hands them to a step, which makes no test, takes any floats, infinite ones and
// NaNs too, and has its tables lent.

#![tactic(auto)]

ghost use Rattle.std.specs.Prelude.{◌≡◌, ◌+◌, ◌*◌, ◌<◌, ◌≤◌, length, IfOk};
ghost use Rattle.std.specs.Float.Ieee.{add};
ghost use Rattle.std.specs.Float.{binary32};
ghost use Rattle.laws.specs.Checks.{first, folded};
ghost use Rattle.laws.specs.Lists.{at, tab, filled};
ghost use Rattle.laws.specs.Sum.{zero_f};
ghost use Rattle.refusals.specs.Refusals.{told};
ghost use Rattle.side_info.specs.Editions.{edition_of};
ghost use Rattle.imdct.specs.Imdct.{window_number};
ghost use Rattle.hybrid.specs.Hybrid.{window_kind, subband_of, places_of, hybrid_at, overlap_at, hybrid, overlap_after, hybrid_checks, HybridAnswer};

use imdct::{Window, imdct_win};
use refusals::{Refusal, refuse_if};
use side_info::{BlockType, Edition};
use tables::Transform;

// The window kind of a subband.
fn window_kind(kind: BlockType, sb: usize) -> Window
    ensures { window_number result ≡ window_kind kind sb }
{
    match kind {
        BlockType::Long => Window::Long,
        BlockType::Start => Window::Start,
        BlockType::Short => Window::Short,
        BlockType::End => Window::End,
        BlockType::Mixed => { if sb < 2 { Window::Long } else { Window::Short } }
    }
}

// The 18 samples of a subband.
fn subband(samples: &[f32; 576], sb: usize) -> [f32; 18]
    requires { sb < 32 }
    ensures { result ≡ subband_of samples.now sb }
{
    let mut s = [0.0f32; 18];
    s.copy_from_slice(&samples[18 * sb..18 * sb + 18]);
    s
}

// The 36 places of a subband.
fn subband_places(
    tables: &Transform,
    edition: Edition,
    kind: BlockType,
    samples: &[f32; 576],
    sb: usize,
) -> [f32; 36]
    requires { sb < 32 }
    ensures { result ≡ places_of edition kind samples.now sb }
{
    imdct_win(
        tables,
        edition,
        window_kind(kind, sb),
        &subband(samples, sb),
    )
}

// A subband's first half and its stored overlap, added.
fn overlapped(places: &[f32; 36], overlap: &[f32; 576], sb: usize) -> [f32; 18]
    requires { sb < 32 }
    ensures { result ≡ tab 18 (λ i. add binary32 (at places.now i) (at overlap.now (18 * sb + i))) }
{
    let mut sums = [0.0f32; 18];
    for i in 0..18 {
        sums[i] = places[i] + overlap[18 * sb + i];
    }
    sums
}

// 18 numbers of `values` from place `from` on, stored over a subband's. One by one: with copy_from_slice the compiler puts the
// sums of the long transform together less well, and hybrid takes four tenths more instructions at a long kind.
fn store(values: &[f32], from: usize, out: &mut [f32])
    requires { (from + 18 ≤ length values.now) × (18 ≤ length out.old) }
    ensures { out.new ≡ filled 18 (λ i. at values.now (from + i)) out.old }
{
    for i in 0..18 {
        out[i] = values[from + i];
    }
}

// The subbands below `used`.
fn subbands(
    tables: &Transform,
    edition: Edition,
    kind: BlockType,
    used: usize,
    overlap: &mut [f32; 576],
    samples: &mut [f32; 576],
)
    requires { used ≤ 32 }
    ensures { (samples.new ≡ filled (18 * used) (hybrid_at edition kind samples.old overlap.old) samples.old)
        × (overlap.new ≡ filled (18 * used) (overlap_at edition kind samples.old) overlap.old) }
{
    for sb in 0..used {
        let places = subband_places(tables, edition, kind, samples, sb);
        let sums = overlapped(&places, overlap, sb);
        store(&sums, 0, &mut samples[18 * sb..18 * sb + 18]);
        store(&places, 18, &mut overlap[18 * sb..18 * sb + 18]);
    }
}

// Subbands of zeros: each place is +0.0, so that the samples become 0.0 plus their overlap and the overlap +0.0. `0.0 +` stays: it
// makes +0.0 of a stored -0.0. The place counts in both slices.
fn silent(overlap: &mut [f32], samples: &mut [f32])
    requires { length samples.old ≤ length overlap.old }
    ensures { (samples.new ≡ tab (length samples.old) (λ i. add binary32 zero_f (at overlap.old i)))
        × (overlap.new ≡ tab (length overlap.old) (λ i. zero_f)) }
{
    for i in 0..samples.len() {
        samples[i] = 0.0 + overlap[i];
    }
    overlap.fill(0.0);
}

// Hybrid synthesis of any samples and overlap: of the used subbands, and after them of the silent. The tables are lent.
#[tactic(auto, using(crate::proofs::Unused::used_small))]
pub fn hybrid_step(
    tables: &Transform,
    edition: Edition,
    kind: BlockType,
    overlap: &mut [f32; 576],
    samples: &mut [f32; 576],
)
    ensures { (samples.new ≡ hybrid edition kind samples.old overlap.old)
        × (overlap.new ≡ overlap_after edition kind samples.old) }
{
    let used = silence::used_subbands(samples);
    subbands(tables, edition, kind, used, overlap, samples);
    silent(&mut overlap[18 * used..], &mut samples[18 * used..]);
}

// The edition that the number names, or the refusal of the first check that fails.
#[tactic(auto, unfolding(laws::specs::Checks::next))]
fn accepted(edition: u8, samples: &[f32], overlap: &[f32]) -> Result<Edition, Refusal>
    ensures number { told result ≡ first (hybrid_checks edition samples.now overlap.now) }
    ensures in_order { told result ≡ folded 0 (hybrid_checks edition samples.now overlap.now) }
    ensures named { IfOk result (λ e. e ≡ edition_of edition) }
{
    let edition = Edition::try_from(edition)?;
    refuse_if(!laws::all_finite(samples), Refusal::SamplesNotFinite)?;
    refuse_if(!laws::all_finite(overlap), Refusal::HistoryNotFinite)?;
    Ok(edition)
}

// Hybrid synthesis of finite samples and overlap; others are refused.
pub fn hybrid_synthesis(
    edition: u8,
    kind: BlockType,
    overlap: &mut [f32; 576],
    samples: &mut [f32; 576],
) -> Result<(), Refusal>
    ensures { HybridAnswer edition kind samples.old overlap.old (told result) (samples.new, overlap.new) }
{
    let edition = accepted(edition, samples, overlap)?;
    hybrid_step(&Transform::new(), edition, kind, overlap, samples);
    Ok(())
}
