//! Weights with their laws, and the theorems on walks that hold of every kind of weight.
#![tactic(auto)]

mod theorems;
mod weight;

pub use theorems::{
    by_cells_stands, late_stands, moves_fair_stands, never_better_stands, never_later_stands,
    never_later_told_stands, pushforward_stands, rounded_stands,
};
pub use weight::Weight;
