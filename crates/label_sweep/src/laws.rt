//! The laws of the sweep: each is the contract of a function with an empty body.

ghost use Rattle.label_sweep.specs.Changing.{ChangingAreLayers, ChangingBound};
ghost use Rattle.label_sweep.specs.Laws.{FirstLeft, LeftOfEnd, LeftOfFirst, EndsAreLevel, LeftOfNext, RightIsBeyond, SearchIsMonotone, StandingReaches, StandingStays, UprightIsNext};
ghost use Rattle.label_sweep.specs.Labels.{TurnIsLabelled};
ghost use Rattle.label_sweep.specs.StripLabels.{StripsMakeResult};

/// What begins at a vertex, put in the place of what ends there, keeps the order.
pub fn standing_stays()
    ensures { StandingStays }
{}

/// The first edge that begins at a vertex has the parity under the lowest edge above.
pub fn left_of_first()
    ensures { LeftOfFirst }
{}

/// Where no edge is above the vertex, that edge has no parity on its left.
pub fn first_left()
    ensures { FirstLeft }
{}

/// Each further one has that beyond the one before.
pub fn left_of_next()
    ensures { LeftOfNext }
{}

/// A binary search among what stands finds the place of a vertex.
pub fn search_is_monotone()
    ensures { SearchIsMonotone }
{}

/// What stands at a vertex's height ends there.
pub fn ends_are_level()
    ensures { EndsAreLevel }
{}

/// From one vertex to the next nothing changes.
pub fn standing_reaches()
    ensures { StandingReaches }
{}

/// The highest edge that ends at a vertex and the first that begins there have the same parities on their left.
pub fn left_of_end()
    ensures { LeftOfEnd }
{}

/// An upright edge begins at the vertex before its end.
pub fn upright_is_next()
    ensures { UprightIsNext }
{}

/// Across an edge the parities change in the layers in which it is odd.
pub fn right_is_beyond()
    ensures { RightIsBeyond }
{}

/// The labels of all edges that begin at a vertex, from that of the first.
pub fn turn_is_labelled()
    ensures { TurnIsLabelled }
{}

/// The edges that change a parity are layers.
pub fn changing_are_layers()
    ensures { ChangingAreLayers }
{}

/// They bound the result of all edges.
pub fn changing_bound()
    ensures { ChangingBound }
{}

/// The directed edges along the edges of all strips, in order, are those of the result.
pub fn strips_make_result()
    ensures { StripsMakeResult }
{}
