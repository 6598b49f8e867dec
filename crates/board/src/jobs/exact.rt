//! The exact answer of a job that is asked about, over any kind.
ghost use Rattle.std.specs.Prelude.{◌≡◌, ◌≤◌, length};
ghost use Rattle.analysis.specs.Cells.{cells};
ghost use Rattle.analysis.specs.Sheets.{Done};
ghost use Rattle.scenarios.specs.Questions.{weight_of_all, answer};
ghost use Rattle.board.specs.Walk.{gathered_late};
ghost use Rattle.board.specs.Asked.{question_asked};

use crate::jobs::asked::Asked;
use crate::jobs::walk::Unsettled;
use analysis::{Ranking, SheetRefusal, Weight, total};

// Stays: the sheet is no array of 257 cells, for the reason at `begin` in walk.rt.
/// Gathers the cells after the deadline in cell 256, and leaves those between nought.
fn gather_late<W: Weight>(sheet: &mut [W], deadline: u8)
    requires { (length sheet.old ≡ 257) × (deadline ≤ 254) }
    ensures { cells W.ops sheet.new ≡ gathered_late W.ops deadline (cells W.ops sheet.old) }
{
    let after = &mut sheet[deadline as usize + 1..];
    let mut late = W::nought();
    for cell in after.iter_mut() {
        late = late.sum(*cell);
        *cell = W::nought();
    }
    sheet[256] = late;
}

impl Asked {
    /// The weight of all scenarios of the job: the product of the totals of the opening table and of all counted jobs.
    pub fn scenario_weight<W: Weight, R: Ranking>(&self, rule: &R) -> W
        ensures { result ≡ weight_of_all W.ops (question_asked (R.Ranking.ranks rule.now) self.now) }
    {
        let mut all: W = total(self.opening.pairs());
        for next in self.counted(rule) {
            all = all.product(total(next.task.table.pairs()));
        }
        all
    }

    /// Fills the first 257 cells of a sheet with the exact answer of the job.
    pub fn exact<W: Weight, R: Ranking>(
        &self,
        rule: &R,
        sheet: &mut [W],
    ) -> Result<(), SheetRefusal>
        ensures { Done W.ops result sheet.old sheet.new (answer W.ops (question_asked (R.Ranking.ranks rule.now) self.now)) }
    {
        if sheet.len() < 257 {
            return Err(SheetRefusal::Short);
        }
        let cells = &mut sheet[0..257];
        self.walk(rule, &Unsettled, W::unit(), cells)?;
        gather_late(cells, self.job.task.deadline);
        Ok(())
    }
}
