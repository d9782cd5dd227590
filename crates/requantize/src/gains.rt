// The gain of a band: 2 to the quarters that its side information leaves of the global gain.
ghost use Rattle.std.specs.Prelude.{◌≡◌, false, ◌<◌, ◌≤◌, pos, ◌-ℤ◌};
ghost use Rattle.powers.specs.Quarters.{InGain};
ghost use Rattle.powers.specs.Powers.{gain};
ghost use Rattle.side_info.specs.Side.{factor_too_high, subblock_gain_too_high};
ghost use Rattle.requantize.specs.Requantize.{multiplier, pre, long_quarters, short_quarters};

use side_info::SideInfo;

// What a scale factor is multiplied by.
pub fn multiplier(side: SideInfo) -> u32
    ensures { result ≡ multiplier side }
{
    if side.scalefac_scale { 4 } else { 2 }
}

// What preflag adds to the factor of long band k.
pub fn pre(side: SideInfo, k: usize) -> u32
    requires { k < 22 }
    ensures { result ≡ pre side k }
{
    if side.preflag {
        u32::from(bands::preflag_table()[k])
    } else {
        0
    }
}

// What is left of the gain. It may be negative.
pub fn quarters(gain: u8, less: u32) -> i32
    requires { (210 ≤ less) × (less ≤ 326) }
    ensures { (result ≡ pos gain -ℤ pos less) × InGain result }
{
    i32::from(gain) - less as i32
}

// Of long band k.
pub fn long_gain(side: SideInfo, k: usize) -> f32
    requires factors_fit { factor_too_high side ≡ false }
    requires k_bound { k < 22 }
    ensures { result ≡ gain (long_quarters side k) }
{
    let factor = u32::from(side.scalefac_l[k]);
    let sum = factor + pre(side, k);
    let less = 210 + multiplier(side) * sum;
    powers::gain_of(quarters(side.global_gain, less))
}

// Of window win of short band k.
pub fn short_gain(side: SideInfo, k: usize, win: usize) -> f32
    requires factors_fit { factor_too_high side ≡ false }
    requires gains_fit { subblock_gain_too_high side ≡ false }
    requires k_bound { k < 13 }
    requires win_bound { win < 3 }
    ensures { result ≡ gain (short_quarters side k win) }
{
    let factor = u32::from(side.scalefac_s[3 * k + win]);
    let subblock = u32::from(side.subblock_gain[win]);
    let less = 210 + 8 * subblock + multiplier(side) * factor;
    powers::gain_of(quarters(side.global_gain, less))
}
