//! The questions on a plan.
ghost use Rattle.std.specs.Prelude.{◌≡◌, ◌≤◌, length, IfOk};
ghost use Rattle.analysis.specs.Cells.{cells};
ghost use Rattle.kinds.specs.Counts.{count_ops};
ghost use Rattle.book.specs.Drafts.{plan_book};
ghost use Rattle.board.specs.Jobs.{asked};
ghost use Rattle.board.specs.Found.{job_of, Stands};
ghost use Rattle.book.specs.Granted.{granted_job, AskedIn};
ghost use Rattle.book.specs.Asks.{granted, rounded_answer, swept};
ghost use Rattle.book.specs.Refusals.{told};

use crate::drafts::plans::Plan;
use crate::drafts::plans::sheets::check_sheets;
use crate::refusals::Refusal;
use analysis::{Count, Ranking, clear};
use board::{Asked, Job};

impl Plan {
    /// Job `index` of the task at a place, if the window has it and its deadline.
    pub(super) fn job(&self, place: u8, index: u32) -> Result<Asked, Refusal>
        ensures finds { granted_job result ≡ granted (plan_book self.now) (asked (plan_book self.now) place index) }
        ensures stands { IfOk result (λ a. Stands (plan_book self.now).places (job_of a.job)) }
        ensures in_book { IfOk result (AskedIn (plan_book self.now)) }
    {
        let task = self.draft.entry(place).ok_or(Refusal::NoJob)?;
        let end = self.window() as u64;
        let release = task.release_of(index);
        if release >= end {
            return Err(Refusal::NoJob);
        }
        if release + task.deadline as u64 > end {
            return Err(Refusal::Window);
        }
        Ok(Asked {
            entries: self.draft.entries,
            opening: self.draft.opening,
            job: Job {
                place,
                task,
                release: release as u32,
            },
        })
    }
}

// Stays: each question says of both sheets what it leaves, since they are the caller's slices (no heap, fixed memory), and no type of ours can hold that.
// Stays: place, index and the sheets are parameters, here, in `response` and in `task`, as clients write these calls out: a struct would be one name more, no plainer.
impl Plan {
    /// The rounded late weight of job `index` of the task at a place, over 1,048,576. The first 257 cells of both sheets are left nought.
    pub fn rounded<R: Ranking>(
        &self,
        rule: &R,
        place: u8,
        index: u32,
        answer: &mut [Count],
        work: &mut [Count],
    ) -> Result<u64, Refusal>
        ensures answers { told result ≡ rounded_answer (R.Ranking.ranks rule.now) (plan_book self.now) place index (length answer.old) (length work.old) }
        ensures leaves_answer { cells count_ops answer.new ≡ swept count_ops (told result) (cells count_ops answer.old) }
        ensures leaves_work { cells count_ops work.new ≡ swept count_ops (told result) (cells count_ops work.old) }
        ensures small { IfOk result (λ late. late ≤ 1048576) }
    {
        check_sheets(answer, work)?;
        let job = self.job(place, index)?;
        let late = job.rounded_late(rule, answer)?;
        clear(work)?;
        Ok(late)
    }
}
