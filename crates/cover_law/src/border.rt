//! Rounded edges with the features whose border they are, as code holds them.

use geom::Edge;

/// A rounded edge, and from where to before where its features stand in a list of the features of all edges.
#[derive(Clone, Copy, Debug)]
pub struct Border {
    pub edge: Edge,
    pub from: usize,
    pub to: usize,
}
