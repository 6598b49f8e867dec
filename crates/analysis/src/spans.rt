ghost use Rattle.std.specs.Prelude.{◌≡◌, ◌≤◌, length, MatchResult};
ghost use Rattle.analysis.specs.Cells.{cells, span};
ghost use Rattle.analysis.specs.Sheets.{RefusedShort};

use super::sheet_refusal::SheetRefusal;
use theory::Weight;

// The place of the cell that holds what lies beyond the times.
pub const BEYOND: usize = 256;

// How many cells a sheet has.
pub const CELLS: usize = 257;

// Refuses a sheet with fewer than 257 cells.
pub fn long_enough<W: Weight>(sheet: &[W]) -> Result<(), SheetRefusal>
    ensures { MatchResult result (λ _. 257 ≤ length sheet.now) (RefusedShort sheet.now) }
{
    if sheet.len() < CELLS {
        Err(SheetRefusal::Short)
    } else {
        Ok(())
    }
}

// The sum of the cells.
pub fn gathered<W: Weight>(part: &[W]) -> W
    ensures { result ≡ span W.ops (cells W.ops part.now) 0 (length part.now) }
{
    part.iter().fold(W::nought(), |all, cell| all.sum(*cell))
}

// Makes each cell nought.
pub fn erase<W: Weight>(part: &mut [W])
    ensures { cells W.ops part.new ≡ (λ _. W.ops.nought) }
{
    // Stays: tried, and the proof did not close: `fill` asks for a clone that cannot fail, which the bound `Weight` does not say.
    for cell in part.iter_mut() {
        *cell = W::nought();
    }
}
