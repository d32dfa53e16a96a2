//! What is told of each number that is drawn and of each piece that is posted.

/// Which pass over the tiles is on.
#[derive(Clone, Copy, PartialEq, Eq, Debug)]
pub enum Phase {
    /// Pieces are made.
    Route,
    /// Rounded edges are tested against one another.
    Node,
}

/// Is told of each number that is drawn and of each piece that is posted. It may wait.
pub trait Gate {
    /// A hand has drawn this number, and makes its piece next.
    fn drawn(&self, phase: Phase, number: u32);

    /// The piece of this number was posted.
    fn posted(&self, phase: Phase, number: u32);
}

/// Returns at once.
#[derive(Clone, Copy, Debug)]
pub struct OpenGate;

impl Gate for OpenGate {
    fn drawn(&self, _phase: Phase, _number: u32) {}

    fn posted(&self, _phase: Phase, _number: u32) {}
}
