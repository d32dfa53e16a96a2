//! A set of two features and more, as two parts; and the numbers of other sets.

/// The set without features.
pub const EMPTY: u32 = u32::MAX;

/// The number of a feature alone is the feature and this.
pub const ALONE: u32 = 1 << 31;

/// The features of a set all agree above their lowest `levels` bits, and differ in the highest of these: it is 0 in the low part, and
/// 1 in the high part.
#[derive(Clone, Copy, Debug)]
pub struct Tree {
    pub low: u32,
    pub high: u32,
    pub levels: u32,
    /// One of its features.
    pub member: u32,
    /// How many features it has.
    pub size: u32,
}

/// A feature of a set, and the least number of bits above which all its features agree: 0 for a feature alone.
#[derive(Clone, Copy, Debug)]
pub struct Head {
    pub member: u32,
    pub levels: u32,
}
