//! The chart of a response: a bar for each time, and one for the late cell.
ghost use Rattle.std.specs.Prelude.{◌≡◌, ◌++◌, OnOk};
ghost use Rattle.analysis.specs.Cells.{cells};
ghost use Rattle.answers.specs.Charts.{largest as largest_size, time_bar, time_bars, chart_text};

use crate::bars::{write_bar, write_padded};
use crate::responses::late_cell;
use std::alloc::AllocError;
use texts::{Printable, write_text};

/// The largest size of the cells of a sheet.
fn largest<W: Printable>(sheet: &[W]) -> u64
    ensures { result ≡ largest_size W.size (cells W.ops sheet.now) 257 }
{
    sheet
        .iter()
        .take(257)
        .map(|cell| cell.size())
        .max()
        .unwrap_or(0)
}

/// Writes the line of a time, where its cell is not nought.
fn write_time_bar<W: Printable>(
    time: usize,
    cell: W,
    most: u64,
    out: &mut Vec<u8>,
) -> Result<(), AllocError>
    ensures { OnOk result (out.new.items ≡ out.old.items ++ time_bar W.size most time cell) }
{
    let size = cell.size();
    if size == 0 {
        return Ok(());
    }
    write_padded(time, out)?;
    write_bar(size, most, out)
}

// Stays: no plainer otherwise: one function for this and `write_times` would take a closure that allocates, with clauses longer than the loop.
/// Writes the lines of the times of a sheet.
fn write_time_bars<W: Printable>(
    sheet: &[W],
    most: u64,
    out: &mut Vec<u8>,
) -> Result<(), AllocError>
    ensures { OnOk result (out.new.items ≡ out.old.items ++ time_bars W.size most (cells W.ops sheet.now)) }
{
    for (time, cell) in sheet.iter().take(256).enumerate() {
        write_time_bar(time, *cell, most, out)?;
    }
    Ok(())
}

/// Writes the chart of a response: a line for each time whose cell is not nought, and one for the late cell. The cells that a sheet is
/// too short for are nought.
pub fn write_chart<W: Printable>(sheet: &[W], out: &mut Vec<u8>) -> Result<(), AllocError>
    ensures { OnOk result (out.new.items ≡ out.old.items ++ chart_text W.size (cells W.ops sheet.now)) }
{
    let most = largest(sheet);
    write_time_bars(sheet, most, out)?;
    write_text(b"late", out)?;
    write_bar(late_cell(sheet).size(), most, out)
}
