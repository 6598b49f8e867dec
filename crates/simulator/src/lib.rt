//! A simulator of a board's plan: it draws every scenario and runs the processor tick by tick, in whole numbers.
#![tactic(auto)]

mod answers;
mod asks;
mod book;
mod jobs;
mod refusals;
mod rounded;
mod rules;
mod runs;
mod tables;

pub use answers::{SimLateness, SimTotals};
pub use asks::SimAsk;
pub use book::{SimBook, SimTask};
pub use refusals::SimRefusal;
pub use rules::{SimKind, SimRule};
pub use tables::{SimPair, SimTable};
