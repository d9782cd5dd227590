// Requantize: one channel's whole numbers to floats.

#![tactic(auto)]

mod fill;
mod gains;
mod runs;

ghost use Rattle.std.specs.Prelude.{◌≡◌, true, false, ℕ, ◌<◌, ◌≤◌, ltb, IfOk};
ghost use Rattle.laws.specs.Checks.{first, folded};
ghost use Rattle.power_table.specs.Power.{PowerTable, LowTable, HighTable, SignedTable};
ghost use Rattle.refusals.specs.Refusals.{told};
ghost use Rattle.side_info.specs.Side.{number_too_large, numbers_small};
ghost use Rattle.requantize.specs.Requantize.{requantized, requantize_checks, RequantizeAnswer};
ghost use Rattle.requantize.specs.Lookup.{Holds};
ghost use Rattle.requantize.specs.Standard.{reached};
ghost use Rattle.requantize.specs.Parts.{low_sizes, multiplied, Sized};

use crate::runs::Lookup;
use bands::BandTable;
use refusals::{Refusal, refuse_if};
use side_info::{BlockType, SideInfo};

// One channel's numbers to floats, by a lent table. (That the checks pass is said of the numbers here and of three others below, the
// granule's or sizes made of them: a type that says it would be made anew for each.)
fn by_table(
    lookup: Lookup,
    table: BandTable,
    side: SideInfo,
    numbers: &[i16; 576],
    out: &mut [f32; 576],
)
    requires holds { Holds lookup.powers.now lookup.zero numbers.now }
    requires accepted { first (requantize_checks table.number side numbers.now) ≡ 0 }
    ensures { out.new ≡ requantized table.number side numbers.now }
{
    match side.block_type {
        BlockType::Short => fill::short_bands(lookup, table, side, 0, numbers, out),
        BlockType::Mixed => {
            // short band 3 begins at position 36
            fill::long_bands(lookup, table, side, 36, numbers, out);
            fill::short_bands(lookup, table, side, 3, numbers, out);
        }
        BlockType::Long | BlockType::Start | BlockType::End => {
            fill::long_bands(lookup, table, side, side.count1, numbers, out);
            runs::raw_from(side.count1, numbers, out);
        }
    }
}

// Numbers from -255 to 255, by the small table.
pub fn small_step(
    powers: &[u32; 511],
    table: BandTable,
    side: SideInfo,
    spectrum: &[i16; 576],
    out: &mut [f32; 576],
)
    requires signed_table { SignedTable powers.now }
    requires accepted { first (requantize_checks table.number side spectrum.now) ≡ 0 }
    requires small { numbers_small spectrum.now ≡ true }
    ensures { out.new ≡ requantized table.number side spectrum.now }
{
    by_table(Lookup { powers, zero: 255 }, table, side, spectrum, out);
}

// One channel's numbers to floats, where no check fails, by a table of powers that is lent: the sizes first, and then the signs.
pub fn requantize_step(
    powers: &[u32; 8207],
    table: BandTable,
    side: SideInfo,
    spectrum: &[i16; 576],
    out: &mut [f32; 576],
)
    requires power_table { PowerTable powers.now }
    requires accepted { first (requantize_checks table.number side spectrum.now) ≡ 0 }
    ensures { out.new ≡ requantized table.number side spectrum.now }
{
    let mut sizes = [0i16; 576];
    runs::sizes_of(spectrum, &mut sizes);
    by_table(Lookup { powers, zero: 0 }, table, side, &sizes, out);
    runs::signs(spectrum, out);
}

// The first position that is not reached.
fn reach(table: BandTable, side: SideInfo) -> usize
    requires { side.count1 ≤ 576 }
    ensures { (result ≤ 576) × ((i : ℕ) → i < 576 → ltb i result ≡ reached table.number side i) }
{
    match side.block_type {
        BlockType::Short => fill::short_reach(table, 0, side.count1),
        // short band 3 begins at position 36
        BlockType::Mixed => fill::short_reach(table, 3, side.count1),
        BlockType::Long | BlockType::Start | BlockType::End => side.count1,
    }
}

// The floats of the sizes by the first part of the table, and of 1 for a size that it does not have. For a caller whose stack has no room for
// the whole table: this, then the second part if it is needed, then the signs.
pub fn low_step(
    powers: &[u32; 4104],
    table: BandTable,
    side: SideInfo,
    spectrum: &[i16; 576],
    out: &mut [f32; 576],
)
    requires low_table { LowTable powers.now }
    requires accepted { first (requantize_checks table.number side spectrum.now) ≡ 0 }
    ensures { out.new ≡ requantized table.number side (low_sizes spectrum.now) }
{
    let mut low = [0i16; 576];
    runs::low_sizes(spectrum, &mut low);
    by_table(Lookup { powers, zero: 0 }, table, side, &low, out);
}

// Each float times its number's power, by the second part of the table: times 1 where the first part has it.
pub fn high_step(powers: &[u32; 4104], spectrum: &[i16; 576], out: &mut [f32; 576])
    requires high_table { HighTable powers.now }
    requires numbers_fit { number_too_large spectrum.now ≡ false }
    ensures { out.new ≡ multiplied spectrum.now out.old }
{
    let mut places = [0i16; 576];
    runs::high_places(spectrum, &mut places);
    runs::times(powers, &places, out);
}

// The numbers' signs, and the numbers that are not reached, as they are.
pub fn sign_step(table: BandTable, side: SideInfo, spectrum: &[i16; 576], out: &mut [f32; 576])
    requires accepted { first (requantize_checks table.number side spectrum.now) ≡ 0 }
    requires sized { Sized table.number side spectrum.now out.old }
    ensures { out.new ≡ requantized table.number side spectrum.now }
{
    runs::signs(spectrum, out);
    runs::raw_from(reach(table, side), spectrum, out);
}

// The table that the number names, or the refusal of the first check that fails.
#[tactic(auto, unfolding(laws::specs::Checks::next))]
fn accepted(table: usize, side: SideInfo, spectrum: &[i16; 576]) -> Result<BandTable, Refusal>
    ensures number { told result ≡ first (requantize_checks table side spectrum.now) }
    ensures in_order { told result ≡ folded 0 (requantize_checks table side spectrum.now) }
    ensures named { IfOk result (λ t. t.number ≡ table) }
{
    let table = BandTable::try_from(table)?;
    refuse_if(
        side_info::count_too_high(side.count1),
        Refusal::CountTooHigh,
    )?;
    refuse_if(side_info::factor_too_high(side), Refusal::FactorTooHigh)?;
    refuse_if(
        side_info::subblock_gain_too_high(side),
        Refusal::SubblockGainTooHigh,
    )?;
    refuse_if(
        side_info::number_too_large(spectrum),
        Refusal::NumberTooLarge,
    )?;
    Ok(table)
}

// One channel's numbers to floats, or a refusal: nothing is written then.
pub fn requantize(
    table: usize,
    side: SideInfo,
    spectrum: &[i16; 576],
    out: &mut [f32; 576],
) -> Result<(), Refusal>
    ensures { RequantizeAnswer table side spectrum.now out.old (told result) out.new }
{
    let table = accepted(table, side, spectrum)?;
    let powers = power_table::powers();
    requantize_step(&powers, table, side, spectrum, out);
    Ok(())
}
