//! The jobs of a book, and the ones that are counted for a job, one after another.

use crate::jobs::asked::Asked;
use crate::tasks::Task;

pub mod asked;
mod counted;
mod exact;
mod releases;
mod walk;

/// One job of a task: the place and the task, and the tick of its release.
#[derive(Clone, Copy)]
pub struct Job {
    pub place: u8,
    pub task: Task,
    pub release: u32,
}

/// The counted jobs of a job that are left, one after another: from a place of a tick on, or from after the sixteen places.
#[derive(Drop)]
pub(crate) struct CountedJobs<'a, R> {
    asked: &'a Asked,
    rule: &'a R,
    tick: u32,
    place: u8,
}
