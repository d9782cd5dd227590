// The ratios of intensity positions 0 to 5, left and right, and the root of one half: each the nearest f32. tools/tables.py writes this file.
pub const INTENSITY_STEREO_RATIOS: [[f32; 2]; 6] = [
    [0.0, 1.0],
    [0.21132487, 0.7886751],
    [0.36602542, 0.6339746],
    [0.5, 0.5],
    [0.6339746, 0.36602542],
    [0.7886751, 0.21132487],
];

pub const FRAC_1_SQRT_2: f32 = 0.70710677;
