//! When tasks release their jobs.
ghost use Rattle.std.specs.Prelude.{◌≡◌, ℕ, ◌+◌, ◌<◌, ◌≤◌, false};
ghost use Rattle.board.specs.Places.{entry_of};
ghost use Rattle.board.specs.Jobs.{releases, release_of};

use crate::tasks::Task;

impl Task {
    /// The release of job `index`.
    pub fn release_of(&self, index: u32) -> u64
        ensures { result ≡ release_of (entry_of self.now) index }
    {
        self.phase as u64 + index as u64 * self.period as u64
    }

    /// Whether a job is released at the tick.
    pub(crate) fn releases_at(&self, tick: u32) -> bool
        ensures { result ≡ releases (entry_of self.now) tick }
    {
        let phase = self.phase as u32;
        phase <= tick && (tick - phase) % self.period as u32 == 0
    }

    /// The first tick from `from` on at which a job is released.
    pub(crate) fn next_release(&self, from: u32) -> u32
        requires { from ≤ 1048576 }
        ensures low { from ≤ result }
        ensures none { (k : ℕ) → from ≤ k → k < result → releases (entry_of self.now) k ≡ false }
    {
        let phase = self.phase as u32;
        let period = self.period as u32;
        if from <= phase {
            return phase;
        }
        let since = (from - phase) % period;
        if since == 0 {
            from
        } else {
            from + (period - since)
        }
    }
}
