//! The law of the text of faces.

ghost use Rattle.faces_text.specs.Text.{FacesTextIsOne};

/// Layers have one text of faces.
pub fn faces_text_is_one()
    ensures { FacesTextIsOne }
{}
