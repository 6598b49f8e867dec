//! Plan files: the tasks of a book as bytes, loaded whole into a draft.
#![tactic(auto)]

mod bodies;
mod contents;
pub mod faults;
mod fields;
mod loader;
mod page;
mod reports;

pub use faults::{Cause, Fault, FileFault};
pub use loader::load;
pub use reports::report;
