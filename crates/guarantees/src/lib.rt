//! Guarantees: what holds of the answers of two books over every run of calls.
#![tactic(auto)]

ghost use Rattle.guarantees.specs.Law.{Law};

use theory::Weight;

/// Two books that get the same calls, but for slower tables of equal totals in the second: its answers are never better. A rounded answer is close to the exact one.
pub fn slower_never_better<W: Weight>()
    ensures { Law W.ops W.least }
{}
