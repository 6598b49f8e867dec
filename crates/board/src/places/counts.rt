//! The hyperperiod of the tasks, and the jobs in it.
ghost use Rattle.std.specs.Prelude.{◌≡◌, ℕ, ◌%◌, ◌<◌, ◌≤◌, MatchOption, ◌≢◌};
ghost use Rattle.board.specs.Model.{hyperperiod, jobs};
ghost use Rattle.board.specs.Places.{places};

use crate::places::Entries;

/// The least common multiple of two numbers, where it is at most 4,096.
fn common(a: u16, b: u16) -> Option<u16>
    requires { (1 ≤ a) × ((a ≤ 4096) × (1 ≤ b)) }
    ensures { MatchOption result ((k : ℕ) → 1 ≤ k → k ≤ 4096 → k % a ≡ 0 → k % b ≢ 0) (λ m. (1 ≤ m) × (m ≤ 4096) × (m % a ≡ 0) × (m % b ≡ 0) × ((k : ℕ) → k % a ≡ 0 → k % b ≡ 0 → k % m ≡ 0)) }
{
    let times = (1..4096 / a + 1).find(|n| *n as u32 * a as u32 % b as u32 == 0)?;
    Some(times * a)
}

impl Entries {
    /// The hyperperiod; none where it is above 4,096.
    pub fn checked_hyperperiod(&self) -> Option<u16>
        ensures { MatchOption result (hyperperiod (places self.now) ≡ 4097) (λ h. (h ≡ hyperperiod (places self.now)) × (h ≤ 4096)) }
    {
        let mut h = 1;
        for held in &self.at {
            if let Some(task) = held {
                h = common(h, task.period)?;
            }
        }
        Some(h)
    }

    /// The hyperperiod, or 4,097 where it is above 4,096.
    pub fn hyperperiod(&self) -> u16
        ensures { result ≡ hyperperiod (places self.now) }
    {
        self.checked_hyperperiod().unwrap_or(4097)
    }

    /// How many jobs are released in `h` ticks, where each period divides `h`.
    pub fn jobs(&self, h: u16) -> u32
        ensures { result ≡ jobs (places self.now) h }
    {
        let mut n: u32 = 0;
        for held in &self.at {
            if let Some(task) = held {
                n += (h / task.period) as u32;
            }
        }
        n
    }
}
