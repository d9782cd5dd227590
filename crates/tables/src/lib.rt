// The tables of the transform, of antialias and of stereo, as numbers. A const array is built anew at every mention. So
// whoever wants the transform's tables has them built once a granule, as `Transform`, and lends that on; the constants of a few numbers
// are taken where they are used.

#![tactic(auto)]

mod antialias;
mod cosines;
mod stereo;

ghost use Rattle.std.specs.Prelude.{◌≡◌};
ghost use Rattle.tables.specs.Cosines.{cos_n36, cos_n12, imdct_win};
ghost use Rattle.tables.specs.Antialias.{cs, ca};
ghost use Rattle.tables.specs.Stereo.{intensity_ratios, half_root};

use antialias::{CA, CS};
use cosines::{COS_N12, COS_N36, IMDCT_WIN};
use stereo::{FRAC_1_SQRT_2, INTENSITY_STEREO_RATIOS};

// The long transform's cosines: a row for each sample, a place for each result.
pub fn cos_n36_table() -> [[f32; 36]; 18]
    ensures { result ≡ cos_n36 }
{
    COS_N36
}

// The short transform's cosines.
pub fn cos_n12_table() -> [[f32; 12]; 6]
    ensures { result ≡ cos_n12 }
{
    COS_N12
}

// The windows of kinds 0 to 3: long, start, short, end.
pub fn imdct_win_table() -> [[f32; 36]; 4]
    ensures { result ≡ imdct_win }
{
    IMDCT_WIN
}

// The three of them together, as the transform takes them.
#[derive(Drop)]
pub struct Transform {
    pub cos36: [[f32; 36]; 18],
    pub cos12: [[f32; 12]; 6],
    pub windows: [[f32; 36]; 4],
    ghost long_cosines: { cos36 ≡ cos_n36 },
    ghost short_cosines: { cos12 ≡ cos_n12 },
    ghost four_windows: { windows ≡ imdct_win },
}

impl Transform {
    // By the constants and not by the functions above: each table of theirs would be copied once more.
    pub fn new() -> Transform
        ensures cos36 { result.cos36 ≡ cos_n36 }
        ensures cos12 { result.cos12 ≡ cos_n12 }
        ensures windows { result.windows ≡ imdct_win }
    {
        Transform {
            cos36: COS_N36,
            cos12: COS_N12,
            windows: IMDCT_WIN,
        }
    }
}

// The alias constants: what a number keeps of itself,
pub fn cs_table() -> [f32; 8]
    ensures { result ≡ cs }
{
    CS
}

// and what it takes of its mirror image.
pub fn ca_table() -> [f32; 8]
    ensures { result ≡ ca }
{
    CA
}

// The ratios of the intensity positions 0 to 5: left, right.
pub fn intensity_ratios_table() -> [[f32; 2]; 6]
    ensures { result ≡ intensity_ratios }
{
    INTENSITY_STEREO_RATIOS
}

// The f32 nearest to the root of one half.
pub fn half_root() -> f32
    ensures { result ≡ half_root }
{
    FRAC_1_SQRT_2
}
