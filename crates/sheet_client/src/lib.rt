//! The response of a job that waits for another on one processor, with kinds, sheets and rules alone.
#![tactic(auto)]

mod jobs;
mod responses;

pub use jobs::{Job, goes_ahead};
pub use responses::respond;

#[cfg(test)]
mod tests;
