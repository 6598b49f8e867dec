ghost use Rattle.std.specs.Prelude.{◌≡◌};
ghost use Rattle.theory.specs.Rounded.{up};
ghost use Rattle.analysis.specs.Cells.{cells};
ghost use Rattle.kinds.specs.Counts.{count_ops};
ghost use Rattle.analysis.specs.Rounding.{lessened, rounded_off};
ghost use Rattle.analysis.specs.Sheets.{Done};

use super::sheet_refusal::SheetRefusal;
use super::spans::{CELLS, long_enough};
use super::tailing::gather_tails;
use kinds::Count;

// The quotient, rounded up; 0 for the divisor 0.
fn round_up(number: u64, by: u64) -> u64
    ensures { result ≡ up number by }
{
    if by == 0 { 0 } else { number.div_ceil(by) }
}

// Rounds each cell, and makes it the difference of what it was and the next one.
fn take_differences(part: &mut [Count], by: u64)
    ensures { cells count_ops part.new ≡ lessened by (cells count_ops part.old) }
{
    let mut next = 0;
    // Stays: tried on `gather_tails`, and the proof did not close: after `iter_mut().rev()` the check knows no cell of the part.
    for x in (0..part.len()).rev() {
        let here = round_up(part[x].value(), by);
        part[x] = Count::new(here.saturating_sub(next));
        next = here;
    }
}

/// Divides every tail by `by`, rounded up (0 for the divisor 0), and makes each cell up to 256 the difference of its tail and the next.
#[tactic(auto, using(crate::proofs::Fronts::rounded_done))]
pub fn round_tails(sheet: &mut [Count], by: u64) -> Result<(), SheetRefusal>
    ensures { Done count_ops result sheet.old sheet.new (rounded_off by) }
{
    long_enough(sheet)?;
    let part = &mut sheet[..CELLS];
    gather_tails(part);
    take_differences(part, by);
    Ok(())
}
