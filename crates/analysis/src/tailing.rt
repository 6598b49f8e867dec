ghost use Rattle.std.specs.Prelude.{◌≡◌, ◌≤◌, length};
ghost use Rattle.analysis.specs.Cells.{cells, tailed, cleared};
ghost use Rattle.analysis.specs.Inner.{tails_to};
ghost use Rattle.analysis.specs.Sheets.{Done};

use super::sheet_refusal::SheetRefusal;
use super::spans::{CELLS, erase, long_enough};
use theory::Weight;

// Makes each cell the sum of the cells from it to the last.
pub fn gather_tails<W: Weight>(part: &mut [W])
    ensures { cells W.ops part.new ≡ tails_to W.ops (length part.old) (cells W.ops part.old) }
{
    let mut tail = W::nought();
    // Stays: tried, and the proof did not close: after `iter_mut().rev()` the check knows no cell of the part.
    for x in (0..part.len()).rev() {
        tail = part[x].sum(tail);
        part[x] = tail;
    }
}

/// Makes each cell up to 256 its tail: the sum of the cells from it to 256.
#[tactic(auto, using(crate::proofs::Fronts::tailed_done))]
pub fn tails<W: Weight>(sheet: &mut [W]) -> Result<(), SheetRefusal>
    ensures { Done W.ops result sheet.old sheet.new (tailed W.ops) }
{
    long_enough(sheet)?;
    gather_tails(&mut sheet[..CELLS]);
    Ok(())
}

// Makes each cell up to 256 nought.
fn clear_cells<W: Weight>(sheet: &mut [W])
    requires { 257 ≤ length sheet.old }
    ensures { cells W.ops sheet.new ≡ cleared W.ops (cells W.ops sheet.old) }
{
    erase(&mut sheet[..CELLS]);
}

/// Makes the first 257 cells nought.
pub fn clear<W: Weight>(sheet: &mut [W]) -> Result<(), SheetRefusal>
    ensures { Done W.ops result sheet.old sheet.new (cleared W.ops) }
{
    long_enough(sheet)?;
    clear_cells(sheet);
    Ok(())
}
