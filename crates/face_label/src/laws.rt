//! How many strips there are, as a number.

ghost use Rattle.std.specs.Prelude.{◌<◌, ◌≤◌, ℕ, ℤ};
ghost use Rattle.face_label.specs.Strip.{IsLeastWidth, strips_between};

/// Layers are cut into 256 strips at most, and any narrower ones would be more.
pub fn strips_are_few()
    ensures few { (low high : ℤ) (width : ℕ) → IsLeastWidth low high width → strips_between low high width ≤ 256 }
    ensures narrower { (low high : ℤ) (width : ℕ) → IsLeastWidth low high width → (w : ℕ) → 0 < w → w < width → 256 < strips_between low high w }
{}
