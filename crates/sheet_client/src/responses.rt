ghost use Rattle.std.specs.Prelude.{◌≡◌};
ghost use Rattle.analysis.specs.Sheets.{Done};
ghost use Rattle.sheet_client.specs.Responses.{begun, responded};

use analysis::{Pair, SheetRefusal, Weight, add, clear, pass};

// Makes the sheet that of a processor with no work: the unit at the time 0, and nought elsewhere.
fn begin<W: Weight>(sheet: &mut [W]) -> Result<(), SheetRefusal>
    ensures { Done W.ops result sheet.old sheet.new (begun W.ops) }
{
    clear(sheet)?;
    sheet[0] = W::unit();
    Ok(())
}

/// Makes the sheet that of the second job's response, where the first job is released `gap` ticks before it and goes ahead.
pub fn respond<W: Weight>(
    sheet: &mut [W],
    first: &[Pair],
    gap: u64,
    second: &[Pair],
) -> Result<(), SheetRefusal>
    ensures { Done W.ops result sheet.old sheet.new (responded W.ops first.now gap second.now) }
{
    begin(sheet)?;
    add(sheet, first)?;
    pass(sheet, gap)?;
    add(sheet, second)
}
