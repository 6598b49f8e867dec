ghost use Rattle.analysis.specs.Kept.{PassingKeeps, AddingMultiplies, RoundingDivides};

use theory::Weight;

/// Passing keeps the whole weight of a sheet of any kind.
pub fn passing_keeps_weight<W: Weight>()
    ensures { PassingKeeps W.ops }
{}

/// Adding a table multiplies the whole weight by the table's total, in any kind.
pub fn adding_multiplies_weight<W: Weight>()
    ensures { AddingMultiplies W.ops }
{}

/// Rounding leaves every tail divided and rounded up.
pub fn rounding_divides_tails()
    ensures { RoundingDivides }
{}
