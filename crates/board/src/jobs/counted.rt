//! The counted jobs of a job, in their order, from release to release.
ghost use Rattle.std.specs.Prelude.{◌≡◌, ◌+◌, ◌<◌, ◌++◌, map, None, slice_index_or};
ghost use Rattle.std.specs.Option.{option_to_list};
ghost use Rattle.std.specs.Iterator.{YieldsFirstBy, item_count};
ghost use Rattle.board.specs.Places.{places};
ghost use Rattle.board.specs.Jobs.{rank, due, ahead, ahead_at, counted};
ghost use Rattle.board.specs.Found.{job_of};
ghost use Rattle.board.specs.Left.{left, slots};

use crate::jobs::asked::Asked;
use crate::jobs::{CountedJobs, Job};
use analysis::Ranking;

impl Job {
    /// The job's rank by a rule.
    fn rank<R: Ranking>(&self, rule: &R) -> u64
        ensures { result ≡ rank (R.Ranking.ranks rule.now) (job_of self.now) }
    {
        rule.rank(
            self.place,
            self.task.period,
            self.task.deadline,
            self.release as u64,
        )
    }

    /// Whether the job goes ahead of the other: by the lower rank, then the earlier release, then the lower place.
    pub(crate) fn is_ahead<R: Ranking>(&self, rule: &R, other: &Job) -> bool
        ensures { result ≡ ahead (R.Ranking.ranks rule.now) (job_of self.now) (job_of other.now) }
    {
        let mine = (self.rank(rule), self.release, self.place);
        let theirs = (other.rank(rule), other.release, other.place);
        mine < theirs
    }
}

impl Asked {
    /// The tick at which the job's deadline falls.
    fn due(&self) -> u32
        ensures { result ≡ due (job_of self.now.job) }
    {
        self.job.release + self.job.task.deadline as u32
    }

    /// The job that the task at a place releases at the tick, if it goes ahead of the job.
    fn ahead_at<R: Ranking>(&self, rule: &R, place: u8, tick: u32) -> Option<Job>
        ensures { map job_of (option_to_list result) ≡ ahead_at (R.Ranking.ranks rule.now) (job_of self.now.job) place (slice_index_or (places self.now.entries) place None) tick }
    {
        let task = self.entries.get(place)?;
        if !task.releases_at(tick) {
            return None;
        }
        let found = Job {
            place,
            task,
            release: tick,
        };
        if found.is_ahead(rule, &self.job) {
            Some(found)
        } else {
            None
        }
    }

    /// The counted jobs of the job.
    pub(crate) fn counted<'a, R: Ranking>(&'a self, rule: &'a R) -> CountedJobs<'a, R>
        ensures { left (R.Ranking.ranks result.rule.now) result ≡ counted (R.Ranking.ranks rule.now) (places self.now.entries) (job_of self.now.job) }
    {
        CountedJobs {
            asked: self,
            rule,
            tick: self.entries.next_release(0, self.due()),
            place: 0,
        }
    }
}

impl<'a, R: Ranking> CountedJobs<'a, R> {
    // Stays: as a chain over all ticks and places it would be no plainer, and would visit each tick that `next_release` passes over.
    /// Looks at one slot: a place of the tick or, after the sixteen places, the job itself; then goes on to the next.
    fn look(&mut self) -> Option<Job>
        requires { self.old.tick < due (job_of self.old.asked.now.job) }
        ensures finds { left (R.Ranking.ranks self.old.rule.now) self.old ≡ map job_of (option_to_list result) ++ left (R.Ranking.ranks self.new.rule.now) self.new }
        ensures falls { slots self.new < slots self.old }
    {
        let tick = self.tick;
        let place = self.place;
        if place < 16 {
            self.place = place + 1;
            return self.asked.ahead_at(self.rule, place, tick);
        }
        self.tick = self.asked.entries.next_release(tick + 1, self.asked.due());
        self.place = 0;
        if tick == self.asked.job.release {
            Some(self.asked.job)
        } else {
            None
        }
    }
}

impl<'a, R: Ranking> Iterator for CountedJobs<'a, R> {
    type Item = Job;

    ghost next_gives = { YieldsFirstBy job_of (λ s. left (R.Ranking.ranks s.rule.now) s) };

    ghost remaining = { item_count (λ s. left (R.Ranking.ranks s.rule.now) s) };

    fn next(&mut self) -> Option<Job> {
        while self.tick < self.asked.due() {
            if let Some(found) = self.look() {
                return Some(found);
            }
        }
        None
    }
}
