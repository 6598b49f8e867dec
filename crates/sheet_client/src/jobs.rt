ghost use Rattle.std.specs.Prelude.{◌≡◌, nat_lt};

use analysis::Ranking;

/// What a rule asks of a job.
#[derive(Clone, Copy, Debug, PartialEq, Eq)]
pub struct Job {
    pub place: u8,
    pub period: u16,
    pub deadline: u8,
    pub release: u64,
}

impl Job {
    // The job's rank by the rule.
    fn rank<R: Ranking>(self, rule: &R) -> u64
        ensures { result ≡ R.ranks rule.now self.place self.period self.deadline self.release }
    {
        rule.rank(self.place, self.period, self.deadline, self.release)
    }
}

/// Whether the rule ranks `job` below `other`.
pub fn goes_ahead<R: Ranking>(rule: &R, job: Job, other: Job) -> bool
    ensures { result ≡ nat_lt (R.ranks rule.now job.place job.period job.deadline job.release) (R.ranks rule.now other.place other.period other.deadline other.release) }
{
    job.rank(rule) < other.rank(rule)
}
