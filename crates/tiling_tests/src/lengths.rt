//! Lengths round whole chunks of eight.

pub const LENGTHS: [u32; 14] = [0, 1, 7, 8, 9, 15, 16, 17, 31, 32, 33, 255, 256, 257];
