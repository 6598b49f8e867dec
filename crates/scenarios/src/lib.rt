//! Scenarios: what a walk over counted jobs on a sheet says of all scenarios on the processor.
#![tactic(auto)]

ghost use Rattle.scenarios.specs.Theorems.{ExactAnswers, ExactNeverBetter};

mod rounding;

pub use rounding::{rounded_close, rounded_never_better};
use theory::Weight;

/// Each cell of the exact walk up to the deadline holds the weight of exactly the scenarios with that response, and the tail after it that of all others.
pub fn exact_answers<W: Weight>()
    ensures { ExactAnswers W.ops }
{}

/// Worse tables of equal totals never make the late weight of a question smaller, and keep the weight of all scenarios.
pub fn exact_never_better<W: Weight>()
    ensures { ExactNeverBetter W.ops W.least }
{}
