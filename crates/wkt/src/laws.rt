//! Laws of layer texts.

ghost use Rattle.std.specs.Prelude.{◌≡◌, ◌≤◌, ℕ, List, length};
ghost use Rattle.geom.specs.declared.fault.Fault.{Fault};
ghost use Rattle.geom.specs.declared.point.Pt.{Pt};
ghost use Rattle.wkt.specs.LayerText.{IsLayer, Ring};
ghost use Rattle.wkt.specs.Refusals.{IsRefusedWithin, StandsFor};
ghost use Rattle.wkt.specs.Features.{StandsForFeatures, all_rings};

/// A text stands for at most one list of rings.
pub fn one_reading()
    ensures written { (text : List ℕ) (a b : List Ring) → IsLayer text a → IsLayer text b → a ≡ b }
    ensures plain { (text : List ℕ) (a b : List (List Pt)) → StandsFor text a → StandsFor text b → a ≡ b }
{}

/// Within a limit a text is refused for at most one reason, and for none if it is accepted.
pub fn one_refusal()
    ensures reason { (limit : ℕ) (text : List ℕ) (f g : Fault) → IsRefusedWithin limit text f → IsRefusedWithin limit text g → f ≡ g }
    ensures accepted { (limit : ℕ) (text : List ℕ) (rings : List (List Pt)) (f : Fault) → length text ≤ limit → StandsFor text rings → IsRefusedWithin limit text f → ⊥ }
{}

/// An accepted text has one list of features, and their rings are those that it stands for.
pub fn one_list_of_features()
    ensures one { (text : List ℕ) (a b : List (List (List Pt))) → StandsForFeatures text a → StandsForFeatures text b → a ≡ b }
    ensures rings { (text : List ℕ) (features : List (List (List Pt))) → StandsForFeatures text features → StandsFor text (all_rings features) }
    ensures some { (text : List ℕ) (rings : List (List Pt)) → StandsFor text rings → (features : List (List (List Pt))) × StandsForFeatures text features × (all_rings features ≡ rings) }
{}
