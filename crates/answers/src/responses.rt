//! The answer of a response: the weight of each time, and the late weight.
ghost use Rattle.std.specs.Prelude.{◌≡◌, ◌++◌, OnOk};
ghost use Rattle.analysis.specs.Cells.{cells};
ghost use Rattle.answers.specs.Responses.{time_text, times_text, late_text, response_text};

use std::alloc::AllocError;
use texts::{Printable, write_number, write_text};
use theory::Weight;

/// The cell of a sheet that holds what is late; nought where the sheet is too short for it.
pub(crate) fn late_cell<W: Weight>(sheet: &[W]) -> W
    ensures { result ≡ cells W.ops sheet.now 256 }
{
    sheet.get(256).copied().unwrap_or(W::nought())
}

/// Writes a time and the weight of its cell, where that is not nought.
fn write_time<W: Printable>(time: usize, cell: W, out: &mut Vec<u8>) -> Result<(), AllocError>
    ensures { OnOk result (out.new.items ≡ out.old.items ++ time_text W.size W.text time cell) }
{
    if cell.size() == 0 {
        return Ok(());
    }
    write_number(time as u64, out)?;
    write_text(b":", out)?;
    cell.write(out)?;
    write_text(b" ", out)
}

/// Writes the weight of the late cell, and ends the line.
fn write_late<W: Printable>(cell: W, out: &mut Vec<u8>) -> Result<(), AllocError>
    ensures { OnOk result (out.new.items ≡ out.old.items ++ late_text (W.text cell)) }
{
    write_text(b"late ", out)?;
    cell.write(out)?;
    write_text(b"\n", out)
}

/// Writes the times of a sheet whose cell is not nought, rising, with their weights.
fn write_times<W: Printable>(sheet: &[W], out: &mut Vec<u8>) -> Result<(), AllocError>
    ensures { OnOk result (out.new.items ≡ out.old.items ++ times_text W.size W.text (cells W.ops sheet.now)) }
{
    for (time, cell) in sheet.iter().take(256).enumerate() {
        write_time(time, *cell, out)?;
    }
    Ok(())
}

/// Writes the line of a response: each time whose cell is not nought with its weight, and the late weight. The cells that a sheet is
/// too short for are nought.
pub fn write_response<W: Printable>(sheet: &[W], out: &mut Vec<u8>) -> Result<(), AllocError>
    ensures { OnOk result (out.new.items ≡ out.old.items ++ response_text W.size W.text (cells W.ops sheet.now)) }
{
    write_times(sheet, out)?;
    write_late(late_cell(sheet), out)
}
