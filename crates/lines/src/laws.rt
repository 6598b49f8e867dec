//! What holds of every table of a line.
ghost use Rattle.lines.specs.Laws.{HoldsFirst};

/// A table holds the first seventeen pairs of its list.
pub fn table_holds_first_pairs()
    ensures { HoldsFirst }
{}
