//! A board's periodic tasks: time tables, the tasks at sixteen places, and what is answered of one of their jobs.
#![tactic(auto)]

mod jobs;
mod places;
mod tables;
mod tasks;

pub use jobs::Job;
pub use jobs::asked::Asked;
pub use places::Entries;
pub use tables::TimeTable;
pub use tasks::Task;
