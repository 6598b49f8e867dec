//! The questions on a book, each answered by brute force.
ghost use Rattle.std.specs.Prelude.{◌≡◌, ℕ, ◌<◌, ◌≤◌, length, MatchResult, slice_index};
ghost use Rattle.simulator.specs.Refusals.{number, answer};

use super::asks::SimAsk;
use super::book::SimBook;
use super::jobs::Job;
use super::refusals::SimRefusal;
use super::rules::{SimKind, SimRule};

/// How many jobs a task has in a round, and the sum of their rounded late weights.
#[derive(Clone, Copy, PartialEq, Eq)]
pub struct SimLateness {
    pub jobs: u32,
    pub late: u128,
}

/// The weight of the late scenarios, the product of the totals, and the number of tables. A number that does not fit stops at the largest.
#[derive(Clone, Copy)]
pub struct SimTotals {
    pub late: u128,
    pub whole: u128,
    pub tables: u64,
}

// The weight from which on an exact question is too heavy.
const TOP: u128 = 18_446_744_073_709_551_615;

// Copies the answer to the front of the cells.
fn fill(cells: &mut [u128], answer: &[u128; 257])
    requires { 257 ≤ length cells.old }
    ensures { (k : ℕ) → 257 ≤ k → slice_index cells.new k ≡ slice_index cells.old k }
{
    cells[..257].copy_from_slice(answer);
}

impl SimLateness {
    // With one more job, of this rounded late weight.
    fn with_job(self, late: u128) -> SimLateness {
        SimLateness {
            jobs: self.jobs.saturating_add(1),
            late: self.late.saturating_add(late),
        }
    }
}

impl SimBook {
    // The exact answer in the kind, or the refusal.
    fn exact(&self, kind: SimKind, ask: &SimAsk) -> Result<[u128; 257], SimRefusal>
        ensures { MatchResult result (λ _. ask.now.place ≤ 15) (λ e. (11 ≤ number e) × (number e ≤ 13)) }
    {
        let job = self.job(ask)?;
        let mut counted = self.counted(&ask.rule, job);
        if !matches!(kind, SimKind::Possible) && counted.whole(kind) >= TOP {
            return Err(SimRefusal::TooHeavy);
        }
        Ok(counted.run_all(kind))
    }

    // The rounded late weight of the job.
    fn rounded_job(&self, rule: &SimRule, job: Job) -> u128 {
        self.counted(rule, job).late()
    }

    // Whether all jobs of the place that are released in the ticks are due in the window.
    fn all_due(&self, place: u32, from: u64, to: u64) -> bool {
        let end = self.window();
        (from..to)
            .filter_map(|tick| self.released(place, tick))
            .all(|job| job.due() <= end)
    }

    // The number of the place's jobs that are released in the ticks, and the sum of their rounded late weights.
    fn lateness(&self, ask: &SimAsk, from: u64, to: u64) -> SimLateness {
        (from..to)
            .filter_map(|tick| self.released(ask.place, tick))
            .map(|job| self.rounded_job(&ask.rule, job))
            .fold(SimLateness { jobs: 0, late: 0 }, SimLateness::with_job)
    }

    // Stays: a question that is refused draws no scenario, so 0 is its number; a `Result` would let a call fail that cannot.
    /// How many scenarios the exact answer of the job draws, at most 2^64 − 1; 0 where the question is refused.
    pub fn scenarios(&self, ask: &SimAsk) -> u64
        ensures { 15 < ask.now.place → result ≡ 0 }
    {
        match self.job(ask) {
            Ok(job) => self.counted(&ask.rule, job).scenarios(),
            Err(_) => 0,
        }
    }

    /// Fills the first 257 cells with the exact answer in the kind; a refusal leaves the cells.
    pub fn response(
        &self,
        kind: SimKind,
        ask: &SimAsk,
        cells: &mut [u128],
    ) -> Result<(), SimRefusal>
        ensures numbers { answer result ≤ 13 }
        ensures short { length cells.old < 257 → answer result ≡ 10 }
        ensures places { answer result ≡ 0 → ask.now.place ≤ 15 }
        ensures refused { 0 < answer result → cells.new ≡ cells.old }
        ensures after { (k : ℕ) → 257 ≤ k → slice_index cells.new k ≡ slice_index cells.old k }
    {
        if cells.len() < 257 {
            return Err(SimRefusal::Cells);
        }
        let exact = self.exact(kind, ask)?;
        fill(cells, &exact);
        Ok(())
    }

    /// The rounded late weight of the job.
    pub fn rounded(&self, ask: &SimAsk) -> Result<u128, SimRefusal>
        ensures { MatchResult result (λ _. ask.now.place ≤ 15) (λ e. (11 ≤ number e) × (number e ≤ 12)) }
    {
        let job = self.job(ask)?;
        Ok(self.rounded_job(&ask.rule, job))
    }

    /// The lateness of the place's task in the round.
    pub fn task(&self, ask: &SimAsk) -> Result<SimLateness, SimRefusal>
        ensures { MatchResult result (λ _. (ask.now.place ≤ 15) × (ask.now.index < self.now.rounds)) (λ e. (11 ≤ number e) × (number e ≤ 12)) }
    {
        if self.entry(ask.place).is_none() || ask.index >= self.rounds {
            return Err(SimRefusal::NoJob);
        }
        let length = u64::from(self.hyperperiod().ok_or(SimRefusal::NoJob)?);
        let from = u64::from(ask.index).saturating_mul(length);
        let to = from.saturating_add(length);
        if !self.all_due(ask.place, from, to) {
            return Err(SimRefusal::Window);
        }
        Ok(self.lateness(ask, from, to))
    }

    /// The numbers to hold the rounded answer of the job against.
    pub fn totals(&self, ask: &SimAsk) -> Result<SimTotals, SimRefusal>
        ensures { MatchResult result (λ t. (ask.now.place ≤ 15) × (1 ≤ t.tables)) (λ e. (11 ≤ number e) × (number e ≤ 12)) }
    {
        let job = self.job(ask)?;
        let mut counted = self.counted(&ask.rule, job);
        let whole = counted.whole(SimKind::Counts);
        let tables = (counted.jobs().len() as u64).saturating_add(1);
        let cells = counted.run_all(SimKind::Counts);
        Ok(SimTotals {
            late: cells[256],
            whole,
            tables,
        })
    }
}
