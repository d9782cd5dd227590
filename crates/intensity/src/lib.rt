// Intensity stereo: one position scales a long band, or one window of a short band.

#![tactic(auto)]

mod band_runs;

ghost use Rattle.std.specs.Prelude.{◌≡◌, false, ◌≤◌, Ok};
ghost use Rattle.laws.specs.Lists.{at, tab};
ghost use Rattle.intensity.specs.Intensity.{left_ratio, right_ratio, choice_of, scaled, positions_of, long_to, short_from, position_at, position_too_high, position_refused};

use band_runs::BandRuns;
use bands::BandTable;
use refusals::Refusal;
use side_info::{BlockType, Edition, SideInfo};

// The two ratios of an intensity position.
#[derive(Clone, Copy)]
pub struct Ratios {
    pub left: f32,
    pub right: f32,
}

// The choice of position p: the ratios that it scales its band or window by, none for 7, which leaves it as it is, and a refusal above.
pub fn choose(p: u8) -> Result<Option<Ratios>, Refusal>
    ensures { result ≡ choice_of p }
{
    match p {
        0..=5 => {
            let ratios = tables::intensity_ratios_table();
            let row = ratios[usize::from(p)];
            Ok(Some(Ratios {
                left: row[0],
                right: row[1],
            }))
        }
        6 => Ok(Some(Ratios {
            left: 1.0,
            right: 0.0,
        })),
        7 => Ok(None),
        _ => Err(Refusal::PositionTooHigh),
    }
}

// The same of a position that is not refused.
fn ratios_of(p: u8) -> Option<Ratios>
    requires { p ≤ 7 }
    ensures { Ok result ≡ choice_of p }
{
    choose(p).unwrap_or(None)
}

// Which runs intensity looks at: the long ones below `long_to`, and the short ones from `short_from` to 35.
#[derive(Clone, Copy)]
struct Reach {
    long_to: usize,
    short_from: usize,
}

// Long kinds have bands 0 to 20, Short the windows of bands 0 to 11, and Mixed bands 0 to 7 and the windows of bands 3 to 11.
fn reach_of(kind: BlockType) -> Reach
    ensures { (result.long_to ≡ long_to kind) × (result.short_from ≡ short_from kind) }
{
    match kind {
        BlockType::Short => Reach {
            long_to: 0,
            short_from: 0,
        },
        BlockType::Mixed => Reach {
            long_to: 8,
            short_from: 9,
        },
        BlockType::Long | BlockType::Start | BlockType::End => Reach {
            long_to: 21,
            short_from: 36,
        },
    }
}

// The side information whose factors are the positions: channel 0's, and in edition 2 channel 1's.
fn positions_of(edition: Edition, a: SideInfo, b: SideInfo) -> SideInfo
    ensures { result ≡ positions_of edition a b }
{
    match edition {
        Edition::First => a,
        Edition::Second => b,
    }
}

// A band or a window to which intensity applies has a position above 7.
fn position_too_high(edition: Edition, table: BandTable, a: SideInfo, b: SideInfo) -> bool
    ensures { result ≡ position_too_high edition table.number a b }
{
    let reach = reach_of(a.block_type);
    let side = positions_of(edition, a, b);
    let starts = bands::long_bands(table);
    let long = BandRuns {
        edition,
        short: false,
        starts: &starts,
        factors: &side.scalefac_l,
        count1: b.count1,
    };
    if !long.fit(0, reach.long_to) {
        return true;
    }
    let starts = bands::short_bands(table);
    let short = BandRuns {
        edition,
        short: true,
        starts: &starts,
        factors: &side.scalefac_s,
        count1: b.count1,
    };
    !short.fit(reach.short_from, 36)
}

// Refusal 8: intensity is on, and a band or a window that it would apply to has a position above 7. A table that is not
// known has no bands to look at.
#[tactic(auto, unfolding(crate::specs::Intensity::position_refused))]
pub fn position_refused(edition: Edition, on: bool, table: usize, a: SideInfo, b: SideInfo) -> bool
    ensures { result ≡ position_refused edition on table a b }
{
    match BandTable::try_from(table) {
        Ok(table) => on && position_too_high(edition, table, a, b),
        Err(_) => false,
    }
}

// Intensity, by channel 0's block type: both channels are scaled from the numbers of `from`.
pub fn intensity_stereo(
    edition: Edition,
    table: BandTable,
    a: SideInfo,
    b: SideInfo,
    from: &[f32; 576],
    left: &mut [f32; 576],
    right: &mut [f32; 576],
)
    requires { position_too_high edition table.number a b ≡ false }
    ensures left { left.new ≡ tab 576 (λ i. scaled left_ratio (position_at edition table.number a b i) (at from.now i) (at left.old i)) }
    ensures right { right.new ≡ tab 576 (λ i. scaled right_ratio (position_at edition table.number a b i) (at from.now i) (at right.old i)) }
{
    let reach = reach_of(a.block_type);
    let side = positions_of(edition, a, b);
    let starts = bands::long_bands(table);
    let long = BandRuns {
        edition,
        short: false,
        starts: &starts,
        factors: &side.scalefac_l,
        count1: b.count1,
    };
    long.scale(0, reach.long_to, from, left, right);
    let starts = bands::short_bands(table);
    let short = BandRuns {
        edition,
        short: true,
        starts: &starts,
        factors: &side.scalefac_s,
        count1: b.count1,
    };
    short.scale(reach.short_from, 36, from, left, right);
}
