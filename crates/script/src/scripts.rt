//! The book of a script.
use book::{Draft, Plan};

mod steps;

// Stays: no plainer otherwise: moved by value through each line, since `issue` and `reopen` take the book itself; behind `&mut` it would be taken out and put back.
/// The one book of a script: a draft, or the plan that it issued.
#[derive(Drop)]
pub enum ScriptBook {
    Draft(Draft),
    Plan(Plan),
}
