// The bits of the f32 nearest to 2 to the r/4, r from 0 to 3. tools/tables.py writes this file.
pub const ROOTS: [u32; 4] = [1065353216, 1066940400, 1068827891, 1071072509];
