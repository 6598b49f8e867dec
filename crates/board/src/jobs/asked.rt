//! A job that is asked about.
ghost use Rattle.std.specs.Prelude.{◌≡◌, true};
ghost use Rattle.board.specs.Places.{places};
ghost use Rattle.board.specs.Found.{job_of};
ghost use Rattle.board.specs.Standing.{stands};

use crate::jobs::Job;
use crate::places::Entries;
use crate::tables::TimeTable;

/// A job that is asked about, with the tasks and the opening table of its book: its task stands at its place and releases it, and its
/// deadline falls at tick 32,768 or before.
#[derive(Clone, Copy)]
pub struct Asked {
    pub entries: Entries,
    pub opening: TimeTable,
    pub job: Job,
    ghost sound: { stands (places entries) (job_of job) ≡ true },
}
