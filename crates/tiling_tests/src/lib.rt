//! Tests of tiles and of lanes: grids, bins and strips on small examples and against plain loops, and the loops over lanes
//! against plain loops, at lengths round whole chunks and with the differing item at each place.
#![tactic(auto)]

#[cfg(test)]
mod bins;
#[cfg(test)]
mod box_lanes;
#[cfg(test)]
mod grids;
#[cfg(test)]
mod lengths;
#[cfg(test)]
mod parity_lanes;
#[cfg(test)]
mod rects;
#[cfg(test)]
mod side_lanes;
#[cfg(test)]
mod strips;
