//! What grouped links are.

ghost use Rattle.feature_links.specs.Groups.{GroupsAreBorders};

/// The links that occur an odd number of times, by their edges, are the rounded edges that are the border of some feature.
pub fn groups_are_borders()
    ensures { GroupsAreBorders }
{}
