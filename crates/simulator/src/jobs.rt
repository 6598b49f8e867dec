//! The jobs of a book: the one that is asked about, and those that are counted for it.
ghost use Rattle.std.specs.Prelude.{◌≤◌, MatchResult};
ghost use Rattle.simulator.specs.Refusals.{number};

use super::asks::SimAsk;
use super::book::{SimBook, SimTask};
use super::refusals::SimRefusal;
use super::rules::{Priority, SimRule};
use super::tables::SimTable;

// The most jobs of a window: 8 rounds of 64 jobs each.
const MOST: usize = 512;

// A job of a place.
#[derive(Clone, Copy)]
pub(crate) struct Job {
    pub place: u32,
    pub task: SimTask,
    pub release: u64,
}

// A counted job: its priority, its time table, and what is left of it to serve in the scenario that is run.
#[derive(Clone, Copy)]
pub(crate) struct CountedJob {
    pub priority: Priority,
    pub table: SimTable,
    pub left: u32,
}

// What is counted for the job that is asked about: the opening table, what is left of the opening work in the scenario that is run, and the counted jobs in
// their order: by release, then place, with the asked one last of those released with it.
// Stays: an array with a length, since the kit's `ArrayVec` was tried, and fills and moves its 512 places more often: a question of few jobs took 1.8 times as long.
#[derive(Clone, Copy)]
pub(crate) struct Counted {
    pub asked: Job,
    pub opening: SimTable,
    pub left: u32,
    jobs: [CountedJob; MOST],
    len: usize,
}

impl Job {
    // The tick of its deadline.
    pub(crate) fn due(&self) -> u64 {
        self.release.saturating_add(u64::from(self.task.deadline))
    }

    // The job as a counted one.
    fn counted(&self, rule: &SimRule) -> CountedJob {
        let priority = Priority {
            rank: rule.rank(self),
            release: self.release,
            place: self.place,
        };
        CountedJob {
            priority,
            table: self.task.table,
            left: 0,
        }
    }
}

impl SimTask {
    // Whether a job of the task is released at the tick.
    fn releases_at(&self, tick: u64) -> bool {
        let phase = u64::from(self.phase);
        let period = u64::from(self.period);
        phase <= tick && period > 0 && (tick - phase) % period == 0
    }
}

impl SimBook {
    // The tick at which the window ends: the hyperperiod times the rounds.
    // Stays: with no hyperperiod the window has no tick; an Option would be taken apart to 0 at each use, no plainer.
    pub(crate) fn window(&self) -> u64 {
        self.hyperperiod().map_or(0, |length| {
            u64::from(length).saturating_mul(u64::from(self.rounds))
        })
    }

    // The job that is asked about: refused where there is none, and where it is due after the window.
    pub(crate) fn job(&self, ask: &SimAsk) -> Result<Job, SimRefusal>
        ensures { MatchResult result (λ _. ask.now.place ≤ 15) (λ e. (11 ≤ number e) × (number e ≤ 12)) }
    {
        let task = *self.entry(ask.place).ok_or(SimRefusal::NoJob)?;
        let since = u64::from(ask.index).saturating_mul(u64::from(task.period));
        let release = u64::from(task.phase).saturating_add(since);
        let job = Job {
            place: ask.place,
            task,
            release,
        };
        let end = self.window();
        if release >= end {
            return Err(SimRefusal::NoJob);
        }
        if job.due() > end {
            return Err(SimRefusal::Window);
        }
        Ok(job)
    }

    // The job of the place that is released at the tick.
    pub(crate) fn released(&self, place: u32, tick: u64) -> Option<Job> {
        let task = self.entry(place)?;
        if !task.releases_at(tick) {
            return None;
        }
        Some(Job {
            place,
            task: *task,
            release: tick,
        })
    }

    // The jobs that are counted for the asked one: those ahead of it that are released before it is due, and itself.
    pub(crate) fn counted(&self, rule: &SimRule, asked: Job) -> Counted {
        let own = asked.counted(rule);
        let mut counted = Counted {
            asked,
            opening: self.opening,
            left: 0,
            jobs: [own; MOST],
            len: 0,
        };
        for tick in 0..asked.due() {
            let ahead = (0..16)
                .filter_map(|place| self.released(place, tick))
                .map(|job| job.counted(rule))
                .filter(|job| job.priority < own.priority);
            for job in ahead {
                counted.push(job);
            }
            if tick == asked.release {
                counted.push(own);
            }
        }
        counted
    }
}

impl Counted {
    // The jobs in their order.
    pub(crate) fn jobs(&self) -> &[CountedJob] {
        if self.len <= MOST {
            &self.jobs[..self.len]
        } else {
            &self.jobs
        }
    }

    // The jobs in their order, to be run.
    pub(crate) fn jobs_mut(&mut self) -> &mut [CountedJob] {
        if self.len <= MOST {
            &mut self.jobs[..self.len]
        } else {
            &mut self.jobs
        }
    }

    // Puts the job at the end, if there is room.
    fn push(&mut self, job: CountedJob) {
        if self.len < MOST {
            self.jobs[self.len] = job;
            self.len += 1;
        }
    }
}
