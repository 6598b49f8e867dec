//! The walk over the counted jobs of a job that is asked about: exact, over any kind, and rounded, in counts.
ghost use Rattle.std.specs.Prelude.{◌≡◌, ◌+◌, ◌<◌, ◌≤◌, length, IfOk, MatchResult};
ghost use Rattle.analysis.specs.Cells.{cells, added, cleared};
ghost use Rattle.analysis.specs.Sheets.{Done};
ghost use Rattle.kinds.specs.Counts.{count_ops};
ghost use Rattle.scenarios.specs.Walks.{Settling, lone, unsettled, settled, rounded_late};
ghost use Rattle.board.specs.Tables.{table_pairs};
ghost use Rattle.board.specs.Places.{places};
ghost use Rattle.board.specs.Found.{job_of};
ghost use Rattle.board.specs.Walk.{stepped, walked_sheet};
ghost use Rattle.board.specs.Asked.{question_asked};

use crate::jobs::Job;
use crate::jobs::asked::Asked;
use analysis::{
    Count, Pair, Ranking, SheetRefusal, Weight, add, add_from, clear, pass, round_tails, tails,
    total,
};

/// The share of 1 in a rounded answer.
const WHOLE: u64 = 1048576;

// Stays: as an array of 257 cells (tried in `analysis`) the sheet asks for a bound on the size of a kind's element, which callers would owe.
/// Lays the opening table out on a sheet of 257 cells, from `x` at the time 0.
pub(crate) fn begin<W: Weight>(sheet: &mut [W], x: W, opening: &[Pair]) -> Result<(), SheetRefusal>
    requires { length sheet.old ≡ 257 }
    ensures { MatchResult result (λ _. cells W.ops sheet.new ≡ added W.ops 0 (lone W.ops x) opening.now) (λ _. ⊥) }
{
    clear(sheet)?;
    sheet[0] = x;
    add(sheet, opening)?;
    Ok(())
}

/// Counts one job on a sheet, for a job released at `release`, and answers the last counted release that time has passed to.
pub(crate) fn count_in<W: Weight>(
    sheet: &mut [W],
    last: u32,
    release: u32,
    next: &Job,
) -> Result<u32, SheetRefusal>
    requires { (257 ≤ length sheet.old) × (next.now.release < release + 255) }
    ensures { MatchResult result (λ v. record { last = v; sheet = cells W.ops sheet.new } ≡ stepped W.ops release (record { last = last; sheet = cells W.ops sheet.old }) (job_of next.now)) (λ _. ⊥) }
{
    let table = next.task.table.pairs();
    if next.release <= release {
        pass(sheet, next.release.saturating_sub(last) as u64)?;
        add(sheet, table)?;
        Ok(next.release)
    } else {
        add_from(sheet, (next.release - release) as u8, table)?;
        Ok(last)
    }
}

/// What a walk does to a sheet after each table is added.
pub(crate) trait Settle<W: Weight> {
    ghost settles: { Settling W };

    fn settle(&self, sheet: &mut [W], table: &[Pair]) -> Result<(), SheetRefusal>
        ensures { MatchResult result (λ _. cells W.ops sheet.new ≡ settles table.now (cells W.ops sheet.old)) (λ _. length sheet.old < 257) };
}

/// The exact walk does nothing more.
pub(crate) struct Unsettled;

impl<W: Weight> Settle<W> for Unsettled {
    ghost settles = { unsettled };

    fn settle(&self, _sheet: &mut [W], _table: &[Pair]) -> Result<(), SheetRefusal> {
        Ok(())
    }
}

/// The rounded walk divides every tail by the table's total, rounded up.
struct Rounded;

impl Settle<Count> for Rounded {
    ghost settles = { settled };

    fn settle(&self, sheet: &mut [Count], table: &[Pair]) -> Result<(), SheetRefusal> {
        let all: Count = total(table);
        round_tails(sheet, all.value())
    }
}

impl Asked {
    // Stays: the sheet is no array of 257 cells, for the reason at `begin`.
    /// Walks over the counted jobs on a sheet of 257 cells, from `x` at the time 0.
    pub(crate) fn walk<W: Weight, R: Ranking, S: Settle<W>>(
        &self,
        rule: &R,
        settling: &S,
        x: W,
        sheet: &mut [W],
    ) -> Result<(), SheetRefusal>
        requires { length sheet.old ≡ 257 }
        ensures { MatchResult result (λ _. cells W.ops sheet.new ≡ walked_sheet W.ops S.settles x (R.Ranking.ranks rule.now) (places self.now.entries) (table_pairs self.now.opening) (job_of self.now.job)) (λ _. ⊥) }
    {
        let opening = self.opening.pairs();
        begin(sheet, x, opening)?;
        settling.settle(sheet, opening)?;
        let mut last = 0;
        for next in self.counted(rule) {
            last = count_in(sheet, last, self.job.release, &next)?;
            settling.settle(sheet, next.task.table.pairs())?;
        }
        Ok(())
    }

    /// The rounded late weight of the job, by a walk on the first 257 cells of a sheet, which are left nought.
    pub fn rounded_late<R: Ranking>(
        &self,
        rule: &R,
        sheet: &mut [Count],
    ) -> Result<u64, SheetRefusal>
        ensures is { IfOk result (λ v. (v ≡ rounded_late (question_asked (R.Ranking.ranks rule.now) self.now)) × (v ≤ 1048576)) }
        ensures leaves { Done count_ops result sheet.old sheet.new (cleared count_ops) }
    {
        if sheet.len() < 257 {
            return Err(SheetRefusal::Short);
        }
        let cells = &mut sheet[0..257];
        self.walk(rule, &Rounded, Count::new(WHOLE), cells)?;
        tails(cells)?;
        let late = cells[self.job.task.deadline as usize + 1].value();
        clear(cells)?;
        Ok(late)
    }
}
