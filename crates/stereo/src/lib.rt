// Mid-side, and then intensity, over both channels.

#![tactic(auto)]

ghost use Rattle.std.specs.Prelude.{◌≡◌, false, ◌≤◌, IfOk};
ghost use Rattle.laws.specs.Checks.{first, folded};
ghost use Rattle.laws.specs.Lists.{tab};
ghost use Rattle.refusals.specs.Refusals.{told};
ghost use Rattle.side_info.specs.Editions.{edition_of};
ghost use Rattle.intensity.specs.Intensity.{position_refused};
ghost use Rattle.stereo.specs.Stereo.{mid_side_left, mid_side_right, mid_side_end, intensity_from, stereo_left, stereo_right, stereo_checks, StereoAnswer};

use bands::BandTable;
use refusals::{Refusal, refuse_if};
use side_info::{Edition, SideInfo};

// Where mid-side ends: below the larger count1, and at 0 where it is off.
fn mid_side_end(on: bool, a: SideInfo, b: SideInfo) -> usize
    ensures { result ≡ mid_side_end on a b }
{
    if on { a.count1.max(b.count1) } else { 0 }
}

// Mid-side below n.
fn mid_side_below(n: usize, left: &mut [f32; 576], right: &mut [f32; 576])
    requires { n ≤ 576 }
    ensures left { left.new ≡ tab 576 (mid_side_left n left.old right.old) }
    ensures right { right.new ≡ tab 576 (mid_side_right n left.old right.old) }
{
    let half_root = tables::half_root();
    for i in 0..n {
        let l = left[i];
        let r = right[i];
        left[i] = (l + r) * half_root;
        right[i] = (l - r) * half_root;
    }
}

// Mid-side below n, and in `from` the left numbers that intensity takes: in edition 1 those that mid-side made, in edition 2
// those that were there before.
fn mid_side_keeping(
    edition: Edition,
    n: usize,
    left: &mut [f32; 576],
    right: &mut [f32; 576],
    from: &mut [f32; 576],
)
    requires { n ≤ 576 }
    ensures left { left.new ≡ tab 576 (mid_side_left n left.old right.old) }
    ensures right { right.new ≡ tab 576 (mid_side_right n left.old right.old) }
    ensures from { from.new ≡ tab 576 (intensity_from edition n left.old right.old) }
{
    match edition {
        Edition::First => {
            mid_side_below(n, left, right);
            from.copy_from_slice(left);
        }
        Edition::Second => {
            from.copy_from_slice(left);
            mid_side_below(n, left, right);
        }
    }
}

// The whole step: mid-side and then intensity, on any samples. Tests nothing.
pub fn stereo_step(
    edition: Edition,
    table: BandTable,
    mid_side: bool,
    intensity: bool,
    a: SideInfo,
    b: SideInfo,
    left: &mut [f32; 576],
    right: &mut [f32; 576],
)
    requires { (a.count1 ≤ 576) × (b.count1 ≤ 576) × (position_refused edition intensity table.number a b ≡ false) }
    ensures left { left.new ≡ stereo_left edition table.number mid_side intensity a b left.old right.old }
    ensures right { right.new ≡ stereo_right edition table.number mid_side intensity a b left.old right.old }
{
    let n = mid_side_end(mid_side, a, b);
    if intensity {
        let mut from = [0.0f32; 576];
        mid_side_keeping(edition, n, left, right, &mut from);
        intensity::intensity_stereo(edition, table, a, b, &from, left, right);
    } else {
        mid_side_below(n, left, right);
    }
}

// The edition and the table that the numbers name, or the refusal of the first check that fails, each over both channels.
#[tactic(auto, unfolding(laws::specs::Checks::next))]
fn accepted(
    edition: u8,
    table: usize,
    intensity: bool,
    a: SideInfo,
    b: SideInfo,
    left: &[f32],
    right: &[f32],
) -> Result<(Edition, BandTable), Refusal>
    ensures number { told result ≡ first (stereo_checks edition table intensity a b left.now right.now) }
    ensures in_order { told result ≡ folded 0 (stereo_checks edition table intensity a b left.now right.now) }
    ensures named { IfOk result (λ n. (n.0 ≡ edition_of edition) × (n.1.number ≡ table)) }
{
    let edition = Edition::try_from(edition)?;
    let table = BandTable::try_from(table)?;
    refuse_if(
        side_info::count_too_high(a.count1) || side_info::count_too_high(b.count1),
        Refusal::CountTooHigh,
    )?;
    refuse_if(
        side_info::factor_too_high(a) || side_info::factor_too_high(b),
        Refusal::FactorTooHigh,
    )?;
    refuse_if(
        intensity::position_refused(edition, intensity, table.number, a, b),
        Refusal::PositionTooHigh,
    )?;
    refuse_if(
        !laws::all_finite(left) || !laws::all_finite(right),
        Refusal::SamplesNotFinite,
    )?;
    Ok((edition, table))
}

// Stereo over both channels, or a refusal, which leaves both as lent.
pub fn stereo(
    edition: u8,
    table: usize,
    mid_side: bool,
    intensity: bool,
    a: SideInfo,
    b: SideInfo,
    left: &mut [f32; 576],
    right: &mut [f32; 576],
) -> Result<(), Refusal>
    ensures { StereoAnswer edition table mid_side intensity a b left.old right.old (told result) (left.new, right.new) }
{
    let (edition, table) = accepted(edition, table, intensity, a, b, left, right)?;
    stereo_step(edition, table, mid_side, intensity, a, b, left, right);
    Ok(())
}
