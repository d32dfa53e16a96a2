//! The laws of faces.

ghost use Rattle.cover_law.specs.Faces.{FacesAreOne, FacesTell};

/// Features have one list of faces.
pub fn faces_are_one()
    ensures { FacesAreOne }
{}

/// The rows of faces tell of every rational point what covers it.
pub fn faces_tell()
    ensures { FacesTell }
{}
