//! The edges of a result round a vertex, and below a hole.

ghost use Rattle.points_law.specs.RoundVertex.{HolesAreGrounded, NextEdgeIsOneToOne, ResultEdgesClose, ResultLiesLeftOfHoles};

/// At the end of each edge of the result the first neighbour met, turning clockwise, is reached by one that leaves.
pub fn result_edges_close()
    ensures { ResultEdgesClose }
{}

/// Two edges that arrive at one vertex have different next edges.
pub fn next_edge_is_one_to_one()
    ensures { NextEdgeIsOneToOne }
{}

/// What lies just left of the least vertex of a hole is in the result.
pub fn result_lies_left_of_holes()
    ensures { ResultLiesLeftOfHoles }
{}

/// Below that point there is a nearest edge of the result, and it begins further left.
pub fn holes_are_grounded()
    ensures { HolesAreGrounded }
{}
