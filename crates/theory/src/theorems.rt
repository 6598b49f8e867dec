ghost use Rattle.theory.specs.Theorems.{Pushforward, Late, NeverBetter, NeverLater, NeverLaterTold, MovesFair};
ghost use Rattle.theory.specs.Rounded.{Rounded, ByCells};

use super::weight::Weight;

/// Each cell of a walk's sheet holds the weights of exactly the scenarios that end there.
pub fn pushforward_stands<W: Weight>()
    ensures { Pushforward W.ops }
{}

/// The late weight is that of exactly the scenarios that end after the deadline.
pub fn late_stands<W: Weight>()
    ensures { Late W.ops }
{}

/// Worse tables, over the same moves, keep a worse sheet worse.
pub fn never_better_stands<W: Weight>()
    ensures { NeverBetter W.ops W.least }
{}

/// Worse tables never make the late weight of a whole walk smaller.
pub fn never_later_stands<W: Weight>()
    ensures { NeverLater W.ops W.least }
{}

/// The same, told of the scenarios alone.
pub fn never_later_told_stands<W: Weight>()
    ensures { NeverLaterTold W.ops W.least }
{}

/// Passing and adding, and adding from a place, are moves of the kind that the theorems ask for.
pub fn moves_fair_stands()
    ensures { MovesFair }
{}

/// The rounded tails are never below the exact ones, and above them by less than one for each table.
pub fn rounded_stands()
    ensures { Rounded }
{}

/// The rounded walk can be kept as a sheet of cells.
pub fn by_cells_stands()
    ensures { ByCells }
{}
