// The numbers of a channel, band by band: each run of one gain, and then those that are not reached, as they are.
ghost use Rattle.std.specs.Prelude.{◌≡◌, false, cond, ℕ, ◌*◌, ◌/◌, ◌<◌, ◌≤◌, ltb, length, take};
ghost use Rattle.laws.specs.Checks.{first};
ghost use Rattle.laws.specs.Lists.{tab, filled};
ghost use Rattle.powers.specs.Powers.{gain, product};
ghost use Rattle.bands.specs.Bands.{short_starts, short_band, short_begin};
ghost use Rattle.side_info.specs.Side.{factor_too_high, subblock_gain_too_high};
ghost use Rattle.requantize.specs.Requantize.{number_at, short_quarters, long_at, short_reached, requantize_checks};
ghost use Rattle.requantize.specs.Lookup.{Holds};

use crate::gains;
use crate::runs::{self, Lookup};
use bands::BandTable;
use side_info::SideInfo;

// The positions below `reach`, with the gains of their long bands.
pub fn long_bands(
    lookup: Lookup,
    table: BandTable,
    side: SideInfo,
    reach: usize,
    numbers: &[i16; 576],
    out: &mut [f32; 576],
)
    requires holds { Holds lookup.powers.now lookup.zero numbers.now }
    requires accepted { first (requantize_checks table.number side numbers.now) ≡ 0 }
    requires reach_bound { reach ≤ 576 }
    ensures { out.new ≡ filled reach (long_at table.number side numbers.now) out.old }
{
    let starts = bands::long_bands(table);
    for k in 0..22 {
        let begin = starts[k];
        if reach <= begin {
            break;
        }
        let end = starts[k + 1].min(reach);
        let gain = gains::long_gain(side, k);
        runs::scaled(lookup, gain, &numbers[begin..end], &mut out[begin..end]);
    }
}

// The three windows of short band k, one after the other, each with a gain of its own.
pub fn short_windows(
    lookup: Lookup,
    side: SideInfo,
    k: usize,
    width: usize,
    numbers: &[i16],
    out: &mut [f32],
)
    requires holds { Holds lookup.powers.now lookup.zero numbers.now }
    requires factors_fit { factor_too_high side ≡ false }
    requires gains_fit { subblock_gain_too_high side ≡ false }
    requires room { (k < 13) × (0 < width) × (length numbers.now ≡ 3 * width) × (length out.old ≡ 3 * width) }
    ensures { out.new ≡ tab (3 * width) (λ i. product (number_at numbers.now i) (gain (short_quarters side k (i / width)))) }
{
    for win in 0..3 {
        let begin = win * width;
        let end = begin + width;
        let gain = gains::short_gain(side, k, win);
        runs::scaled(lookup, gain, &numbers[begin..end], &mut out[begin..end]);
    }
}

// The short bands from band `from` on: whole ones while they begin below `count1`, and the rest as it is.
// The positions before that band have been done with long bands.
pub fn short_bands(
    lookup: Lookup,
    table: BandTable,
    side: SideInfo,
    from: usize,
    numbers: &[i16; 576],
    out: &mut [f32; 576],
)
    requires holds { Holds lookup.powers.now lookup.zero numbers.now }
    requires accepted { first (requantize_checks table.number side numbers.now) ≡ 0 }
    requires band { from < 13 }
    requires long_done { take (short_begin (short_starts table.number) from) out.old ≡ tab (short_begin (short_starts table.number) from) (long_at table.number side numbers.now) }
    ensures { out.new ≡ tab 576 (λ i. cond (ltb i (short_begin (short_starts table.number) from))
        (long_at table.number side numbers.now i)
        (short_reached table.number side numbers.now i)) }
{
    let starts = bands::short_bands(table);
    let reach = short_reach(table, from, side.count1);
    for k in from..13 {
        let begin = 3 * starts[k];
        if reach <= begin {
            break;
        }
        let end = 3 * starts[k + 1];
        let width = (end - begin) / 3;
        short_windows(
            lookup,
            side,
            k,
            width,
            &numbers[begin..end],
            &mut out[begin..end],
        );
    }
    runs::raw_from(reach, numbers, out);
}

// Where the short bands from band `from` on that begin below `count1` end: the positions from there on are not reached.
pub fn short_reach(table: BandTable, from: usize, count1: usize) -> usize
    requires { (from < 13) × (count1 ≤ 576) }
    ensures { (short_begin (short_starts table.number) from ≤ result) × (result ≤ 576)
        × ((i : ℕ) → short_begin (short_starts table.number) from ≤ i → i < 576 → ltb i result ≡ ltb (short_begin (short_starts table.number) (short_band (short_starts table.number) i)) count1) }
{
    let starts = bands::short_bands(table);
    for k in from..13 {
        let begin = 3 * starts[k];
        if count1 <= begin {
            return begin;
        }
    }
    576
}
