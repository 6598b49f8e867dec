ghost use Rattle.scenarios.specs.Theorems.{RoundedClose, RoundedNeverBetter};

/// The rounded late weight over 1,048,576 is at least the exact late share, and exceeds it by less than 1/1,048,576 for each counted table.
pub fn rounded_close()
    ensures { RoundedClose }
{}

/// Worse tables of equal totals never make the rounded late weight of a question smaller.
pub fn rounded_never_better()
    ensures { RoundedNeverBetter }
{}
