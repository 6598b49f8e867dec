//! A book of a board's periodic tasks: a draft that is edited, and the plan it issues, which answers questions.
#![tactic(auto)]

mod batches;
mod drafts;
mod lateness;
mod refusals;

pub use board::{Task, TimeTable};
pub use drafts::Draft;
pub use drafts::plans::Plan;
pub use lateness::TaskLateness;
pub use refusals::Refusal;
