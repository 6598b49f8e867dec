ghost use Rattle.std.specs.Prelude.{◌≡◌, ◌≤◌, length};
ghost use Rattle.analysis.specs.Cells.{cells, passed};
ghost use Rattle.analysis.specs.Inner.{fallen};
ghost use Rattle.analysis.specs.Sheets.{Done};

use super::sheet_refusal::SheetRefusal;
use super::spans::{BEYOND, erase, gathered, long_enough};
use theory::Weight;

// Moves each cell `g` places down, and makes the last `g` cells nought.
fn fall<W: Weight>(part: &mut [W], g: usize)
    requires { g ≤ length part.old }
    ensures { cells W.ops part.new ≡ fallen g (cells W.ops part.old) }
{
    let kept = part.len() - g;
    part.copy_within(g.., 0);
    erase(&mut part[kept..]);
}

/// Lets `g` ticks pass: each time above `g` falls by `g`, and the others gather at 0. What lies beyond stays.
#[tactic(auto, using(crate::proofs::Fronts::passed_done))]
pub fn pass<W: Weight>(sheet: &mut [W], g: u64) -> Result<(), SheetRefusal>
    ensures { Done W.ops result sheet.old sheet.new (passed W.ops g) }
{
    long_enough(sheet)?;
    let g = g.min(255) as usize;
    let due = gathered(&sheet[..g + 1]);
    fall(&mut sheet[..BEYOND], g);
    sheet[0] = due;
    Ok(())
}
