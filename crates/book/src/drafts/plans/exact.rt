//! The exact question on a plan.
ghost use Rattle.std.specs.Prelude.{◌≡◌, length, IfOk};
ghost use Rattle.analysis.specs.Cells.{cells};
ghost use Rattle.book.specs.Drafts.{plan_book};
ghost use Rattle.book.specs.Asks.{light, granted, response_answer, filled, swept, answered};
ghost use Rattle.board.specs.Jobs.{asked};
ghost use Rattle.board.specs.Found.{job_of, Stands};
ghost use Rattle.book.specs.Granted.{granted_job, AskedIn};
ghost use Rattle.book.specs.Refusals.{told};

use crate::drafts::plans::Plan;
use crate::drafts::plans::sheets::check_sheets;
use crate::refusals::Refusal;
use analysis::{Ranking, Weight, clear};
use board::Asked;

impl Plan {
    /// A job that the question may be answered for: its scenarios weigh less than the kind's top.
    fn light_job<W: Weight, R: Ranking>(
        &self,
        rule: &R,
        place: u8,
        index: u32,
    ) -> Result<Asked, Refusal>
        ensures finds { granted_job result ≡ light W.ops (R.Ranking.ranks rule.now) (plan_book self.now) (granted (plan_book self.now) (asked (plan_book self.now) place index)) }
        ensures stands { IfOk result (λ a. Stands (plan_book self.now).places (job_of a.job)) }
        ensures in_book { IfOk result (AskedIn (plan_book self.now)) }
    {
        let job = self.job(place, index)?;
        let all: W = job.scenario_weight(rule);
        if all.is_top() {
            return Err(Refusal::TooHeavy);
        }
        Ok(job)
    }

    /// Fills the answer sheet with the exact answer of job `index` of the task at a place: up to the deadline the weight of each
    /// response, and in cell 256 that of all other scenarios. The work sheet's first 257 cells are left nought.
    pub fn response<W: Weight, R: Ranking>(
        &self,
        rule: &R,
        place: u8,
        index: u32,
        answer: &mut [W],
        work: &mut [W],
    ) -> Result<(), Refusal>
        ensures answers { told result ≡ answered (response_answer W.ops (R.Ranking.ranks rule.now) (plan_book self.now) place index (length answer.old) (length work.old)) }
        ensures leaves_answer { cells W.ops answer.new ≡ filled W.ops (R.Ranking.ranks rule.now) (plan_book self.now) (response_answer W.ops (R.Ranking.ranks rule.now) (plan_book self.now) place index (length answer.old) (length work.old)) (cells W.ops answer.old) }
        ensures leaves_work { cells W.ops work.new ≡ swept W.ops (told result) (cells W.ops work.old) }
    {
        check_sheets(answer, work)?;
        let job = self.light_job::<W, R>(rule, place, index)?;
        job.exact(rule, answer)?;
        clear(work)?;
        Ok(())
    }
}
