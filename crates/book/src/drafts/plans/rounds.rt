//! The question of one task's jobs in a round.
ghost use Rattle.std.specs.Prelude.{◌≡◌, ◌*◌, ◌≤◌, length, IfOk, Some, None, Err, MatchResult, slice_index_or};
ghost use Rattle.analysis.specs.Cells.{cells, cleared};
ghost use Rattle.kinds.specs.Counts.{count_ops};
ghost use Rattle.book.specs.Drafts.{plan_book};
ghost use Rattle.board.specs.Model.{Entry};
ghost use Rattle.board.specs.Places.{entry_of};
ghost use Rattle.board.specs.Jobs.{Rule};
ghost use Rattle.book.specs.Asks.{task_of, task_answer, late_sum, ReleasedIn, swept};
ghost use Rattle.book.specs.Batches.{IsBatch, Ready};
ghost use Rattle.book.specs.Refusals.{number, told};

use crate::batches::Batch;
use crate::drafts::plans::Plan;
use crate::drafts::plans::sheets::check_sheets;
use crate::lateness::TaskLateness;
use crate::refusals::Refusal;
use analysis::{Count, Ranking, SheetRefusal, clear};
use board::{Asked, Job};

impl Plan {
    /// The jobs of the task at a place that a round releases, if the window has all their deadlines.
    fn batch(&self, place: u8, round: u32) -> Result<Batch, Refusal>
        ensures { MatchResult result (IsBatch (plan_book self.now) place round) (λ e. (rule : Rule) → task_of rule (plan_book self.now) place round (slice_index_or (plan_book self.now).places place None) ≡ Err (number e)) }
    {
        let task = self.draft.entry(place).ok_or(Refusal::NoJob)?;
        if round >= self.draft.rounds as u32 {
            return Err(Refusal::NoJob);
        }
        let jobs = (self.draft.hyperperiod() / task.period) as u32;
        let first = round * jobs;
        let last = task.release_of(first + jobs - 1);
        if last + task.deadline as u64 > self.window() as u64 {
            return Err(Refusal::Window);
        }
        Ok(Batch {
            place,
            task,
            first,
            jobs,
        })
    }
}

impl Plan {
    /// The sum of the rounded late weights of a batch's jobs, by walks on the first 257 cells of a sheet, which are left nought.
    fn sum_late<R: Ranking>(
        &self,
        rule: &R,
        batch: &Batch,
        sheet: &mut [Count],
    ) -> Result<u64, SheetRefusal>
        requires { (Ready (plan_book self.now) batch.now) × (257 ≤ length sheet.old) }
        ensures { MatchResult result (λ v. (v ≡ late_sum (R.Ranking.ranks rule.now) (plan_book self.now) batch.now.place (entry_of batch.now.task) batch.now.first batch.now.jobs) × (v ≤ 1048576 * batch.now.jobs) × (cells count_ops sheet.new ≡ cleared count_ops (cells count_ops sheet.old))) (λ _. ⊥) }
    {
        clear(sheet)?;
        let mut late = 0;
        for index in batch.first..batch.first + batch.jobs {
            let asked = Asked {
                entries: self.draft.entries,
                opening: self.draft.opening,
                job: Job {
                    place: batch.place,
                    task: batch.task,
                    release: batch.task.release_of(index) as u32,
                },
            };
            late += asked.rounded_late(rule, sheet)?;
        }
        Ok(late)
    }
}

impl Plan {
    // Stays: `task` and `rounded` share their first and last step; one function of both would take a closure, with the clauses of each on it.
    /// How many jobs of the task at a place are released in a round, and the sum of their rounded late weights. The first 257 cells of
    /// both sheets are left nought.
    pub fn task<R: Ranking>(
        &self,
        rule: &R,
        place: u8,
        round: u32,
        answer: &mut [Count],
        work: &mut [Count],
    ) -> Result<TaskLateness, Refusal>
        ensures answers { told result ≡ task_answer (R.Ranking.ranks rule.now) (plan_book self.now) place round (length answer.old) (length work.old) }
        ensures leaves_answer { cells count_ops answer.new ≡ swept count_ops (told result) (cells count_ops answer.old) }
        ensures leaves_work { cells count_ops work.new ≡ swept count_ops (told result) (cells count_ops work.old) }
        ensures small { IfOk result (λ x. (x.jobs ≤ 64) × (x.late ≤ 1048576 * x.jobs)) }
        ensures covers { IfOk result (λ x. (e : Entry) → slice_index_or (plan_book self.now).places place None ≡ Some e → ReleasedIn (plan_book self.now) e round (round * x.jobs) x.jobs) }
    {
        check_sheets(answer, work)?;
        let batch = self.batch(place, round)?;
        let late = self.sum_late(rule, &batch, answer)?;
        clear(work)?;
        Ok(TaskLateness {
            jobs: batch.jobs,
            late,
        })
    }
}
