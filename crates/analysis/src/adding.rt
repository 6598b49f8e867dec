ghost use Rattle.std.specs.Prelude.{◌≡◌, ◌+◌, ◌<◌, ◌≤◌, length};
ghost use Rattle.analysis.specs.Cells.{cells, total, share, arriving, added};
ghost use Rattle.analysis.specs.Inner.{joint, carried_past, overrun_past, scaled};
ghost use Rattle.analysis.specs.Sheets.{Done};

use super::pair::Pair;
use super::sheet_refusal::SheetRefusal;
use super::spans::{BEYOND, CELLS, gathered, long_enough};
use theory::Weight;

// The weight of a pair, in the kind.
fn weighed<W: Weight>(pair: Pair) -> W
    ensures { result ≡ W.ops.read pair.weight }
{
    W::read(pair.weight as u32)
}

/// The sum of the table's weights.
pub fn total<W: Weight>(table: &[Pair]) -> W
    ensures { result ≡ total W.ops table.now }
{
    table
        .iter()
        .fold(W::nought(), |all, pair| all.sum(weighed(*pair)))
}

// What one pair brings to the place `x`.
fn brought<W: Weight>(part: &[W], pair: Pair, x: usize) -> W
    requires { x < length part.now }
    ensures { result ≡ share W.ops 0 (cells W.ops part.now) x pair }
{
    let t = pair.time as usize;
    if t <= x {
        part[x - t].product(weighed(pair))
    } else {
        W::nought()
    }
}

// What comes to the place `x`.
fn arrived<W: Weight>(part: &[W], table: &[Pair], x: usize) -> W
    requires { x < length part.now }
    ensures { result ≡ arriving W.ops 0 (cells W.ops part.now) table.now x }
{
    table
        .iter()
        .fold(W::nought(), |all, pair| all.sum(brought(part, *pair, x)))
}

// What one pair brings to the last place or past it.
fn carried<W: Weight>(part: &[W], pair: Pair) -> W
    ensures { result ≡ carried_past W.ops (length part.now) (cells W.ops part.now) pair }
{
    let from = part.len().saturating_sub(pair.time as usize + 1);
    gathered(&part[from..]).product(weighed(pair))
}

// What comes to the last place or past it.
fn overrun<W: Weight>(part: &[W], table: &[Pair]) -> W
    ensures { result ≡ overrun_past W.ops (length part.now) (cells W.ops part.now) table.now }
{
    table
        .iter()
        .fold(W::nought(), |all, pair| all.sum(carried(part, *pair)))
}

// Makes each cell what the table brings to it.
fn spread<W: Weight>(part: &mut [W], table: &[Pair])
    ensures { cells W.ops part.new ≡ joint (arriving W.ops 0 (cells W.ops part.old) table.now) (cells W.ops part.old) (length part.old) }
{
    // Stays: no plainer otherwise: each cell is written from the cells below it, which a loop over the cells cannot read.
    for x in (0..part.len()).rev() {
        part[x] = arrived(part, table, x);
    }
}

// Multiplies each cell.
fn scale<W: Weight>(part: &mut [W], by: W)
    ensures { cells W.ops part.new ≡ scaled W.ops (length part.old) by (cells W.ops part.old) }
{
    for cell in part.iter_mut() {
        *cell = cell.product(by);
    }
}

// Adds the table's times to the times at or above `low`, and multiplies the others by the table's total.
fn add_above<W: Weight>(sheet: &mut [W], low: usize, table: &[Pair]) -> Result<(), SheetRefusal>
    requires { low ≤ 256 }
    ensures { Done W.ops result sheet.old sheet.new (λ f. added W.ops low f table.now) }
{
    long_enough(sheet)?;
    let beyond = overrun(&sheet[low..CELLS], table);
    spread(&mut sheet[low..BEYOND], table);
    scale(&mut sheet[..low], total(table));
    sheet[BEYOND] = beyond;
    Ok(())
}

/// Adds the table's times to each time of the sheet.
pub fn add<W: Weight>(sheet: &mut [W], table: &[Pair]) -> Result<(), SheetRefusal>
    ensures { Done W.ops result sheet.old sheet.new (λ f. added W.ops 0 f table.now) }
{
    add_above(sheet, 0, table)
}

/// Adds the table's times to the times above `r`, and multiplies the others by the table's total.
pub fn add_from<W: Weight>(sheet: &mut [W], r: u8, table: &[Pair]) -> Result<(), SheetRefusal>
    ensures { Done W.ops result sheet.old sheet.new (λ f. added W.ops (r + 1) f table.now) }
{
    add_above(sheet, r as usize + 1, table)
}
