//! The promise of the calls together, as the contracts of functions with empty bodies. No data goes through them.

ghost use Rattle.overlay_c.specs.StripLabels.{StripsAreLabelled};
ghost use Rattle.overlay_c.specs.StripWrite.{StripsAreWritten};
ghost use Rattle.overlay_c.specs.Strips.{IsToldOfOne, StripsAreRounded, told_carried, told_counted, told_line, told_open};

/// No two lists are told alike: what one call tells, the next one reads.
pub fn told_lists_are_one()
    ensures lines { IsToldOfOne told_line }
    ensures opens { IsToldOfOne told_open }
    ensures carried { IsToldOfOne told_carried }
    ensures counted { IsToldOfOne told_counted }
{}

/// The edges that the calls tell of all strips, one behind another, are the rounded edges of the segments, whatever the cuts are.
pub fn strips_are_rounded()
    ensures { StripsAreRounded }
{}

/// The directed edges that the calls tell of all strips of layers are those of the operation's result, whatever the cuts are.
pub fn strips_are_labelled()
    ensures { StripsAreLabelled }
{}

/// The polygons that the calls tell of all strips, one strip behind another, are those of the operation's result, whatever the cuts and the ranges are.
pub fn strips_are_written()
    ensures { StripsAreWritten }
{}
