//! A periodic task.
ghost use Rattle.std.specs.Prelude.{◌≡◌, true};
ghost use Rattle.board.specs.Model.{entry_lawful};
ghost use Rattle.board.specs.Tables.{table_pairs};

use crate::tables::TimeTable;

/// A periodic task, as it is entered at a place: a period of 1 to 4,096, a phase below it, a deadline of 1 to 254, a time table.
#[derive(Clone, Copy)]
pub struct Task {
    pub period: u16,
    pub phase: u16,
    pub deadline: u8,
    pub table: TimeTable,
    ghost lawful: { entry_lawful (record { period = period; phase = phase; deadline = deadline; pairs = table_pairs table }) ≡ true },
}
