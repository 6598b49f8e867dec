//! Weight kinds, sheets of weights, and ranking rules.
#![tactic(auto)]

mod adding;
mod keeping;
mod pair;
mod passing;
mod ranking;
mod rounding;
mod sheet_refusal;
mod short_list;
mod spans;
mod tailing;

pub use adding::{add, add_from, total};
pub use keeping::{adding_multiplies_weight, passing_keeps_weight, rounding_divides_tails};
pub use kinds::{Count, Heaviest, Possible, Weight};
pub use pair::Pair;
pub use passing::pass;
pub use ranking::{DeadlineRule, PeriodRule, Ranking, TableRule};
pub use rounding::round_tails;
pub use sheet_refusal::SheetRefusal;
pub use short_list::{Full, ShortList};
pub use tailing::{clear, tails};
