//! The jobs of one task in a round.
use board::Task;

/// The jobs of one task that a round releases: `jobs` of them, from job `first` on.
#[derive(Clone, Copy)]
pub struct Batch {
    pub place: u8,
    pub task: Task,
    pub first: u32,
    pub jobs: u32,
}
