//! The lines of a console script: what each line means.
#![tactic(auto)]

mod calls;
mod fields;
mod laws;
mod numbers;
mod ranks;
mod reading;
mod rules;
mod tables;
mod words;

pub use calls::Call;
pub use laws::table_holds_first_pairs;
pub use reading::{Line, read_line};
pub use rules::{Kind, Rule};
pub use tables::PairList;
