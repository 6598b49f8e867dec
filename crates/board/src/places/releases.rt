//! When some task releases a job.
ghost use Rattle.std.specs.Prelude.{◌≤◌};
ghost use Rattle.board.specs.Places.{places};
ghost use Rattle.board.specs.Found.{Skips};

use crate::places::Entries;

impl Entries {
    /// The first tick from `from` on at which some job is released, or `end` where that is earlier.
    pub(crate) fn next_release(&self, from: u32, end: u32) -> u32
        requires { (from ≤ end) × (end ≤ 1048576) }
        ensures { Skips (places self.now) from end result }
    {
        let mut next = end;
        for held in &self.at {
            if let Some(task) = held {
                next = next.min(task.next_release(from));
            }
        }
        next
    }
}
