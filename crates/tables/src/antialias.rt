// The eight pairs of alias constants, as puremp3 prints them. tools/tables.py writes this file.
pub const CS: [f32; 8] = [
    0.857493, 0.881742, 0.949629, 0.983315, 0.995518, 0.999161, 0.999899, 0.999993,
];

pub const CA: [f32; 8] = [
    -0.514496, -0.471732, -0.313377, -0.181913, -0.094574, -0.040966, -0.014199, -0.003700,
];
