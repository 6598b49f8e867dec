//! The line of a task, and its table.
ghost use Rattle.std.specs.Prelude.{◌≡◌, ◌++◌, OnOk};
ghost use Rattle.std.specs.List.{flat_map};
ghost use Rattle.board.specs.Places.{entry_of, place_of};
ghost use Rattle.answers.specs.Books.{pair_text, table_text, entry_text, place_text};

use analysis::Pair;
use book::Task;
use std::alloc::AllocError;
use texts::{write_field, write_number, write_text};

/// Writes a blank, a time and its weight.
fn write_pair(pair: &Pair, out: &mut Vec<u8>) -> Result<(), AllocError>
    ensures { OnOk result (out.new.items ≡ out.old.items ++ pair_text pair.now) }
{
    out.push(b' ')?;
    write_number(pair.time as u64, out)?;
    out.push(b':')?;
    write_number(pair.weight as u64, out)
}

/// Writes the pairs of a table.
fn write_pairs(pairs: &[Pair], out: &mut Vec<u8>) -> Result<(), AllocError>
    ensures { OnOk result (out.new.items ≡ out.old.items ++ flat_map pair_text pairs.now) }
{
    for pair in pairs {
        write_pair(pair, out)?;
    }
    Ok(())
}

/// Writes a label and the table that ends a line.
pub(crate) fn write_table(label: &[u8], pairs: &[Pair], out: &mut Vec<u8>) -> Result<(), AllocError>
    ensures { OnOk result (out.new.items ≡ out.old.items ++ table_text label.now pairs.now) }
{
    write_text(label, out)?;
    write_pairs(pairs, out)?;
    write_text(b"\n", out)
}

/// Writes the line of the task at a place.
fn write_entry(place: u8, task: &Task, out: &mut Vec<u8>) -> Result<(), AllocError>
    ensures { OnOk result (out.new.items ≡ out.old.items ++ entry_text place (entry_of task.now)) }
{
    write_number(place as u64, out)?;
    write_field(b" period ", task.period as u64, out)?;
    write_field(b" phase ", task.phase as u64, out)?;
    write_field(b" deadline ", task.deadline as u64, out)?;
    write_table(b" table", task.table.pairs(), out)
}

/// Writes the line of a place, where there is a task at it.
pub(crate) fn write_place(
    place: u8,
    task: Option<Task>,
    out: &mut Vec<u8>,
) -> Result<(), AllocError>
    ensures { OnOk result (out.new.items ≡ out.old.items ++ place_text place (place_of task)) }
{
    if let Some(task) = task {
        write_entry(place, &task, out)?;
    }
    Ok(())
}
