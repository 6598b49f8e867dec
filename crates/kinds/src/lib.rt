//! The weight kinds that are built: counts, possible and heaviest.
#![tactic(auto)]

mod possible;
mod possible_weight;
mod stopped;
mod stopped_weight;
mod summing;

pub use possible::Possible;
pub use stopped::{Count, Heaviest, Stopped};
pub use summing::{Addition, Maximum, Summing};
pub use theory::Weight;
