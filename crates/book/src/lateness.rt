//! What the question `task` answers.

/// How many jobs of a task are released in a round, and the sum of their rounded late weights.
#[derive(Clone, Copy, Debug, PartialEq, Eq)]
pub struct TaskLateness {
    pub jobs: u32,
    pub late: u64,
}
