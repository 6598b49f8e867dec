//! Edits of a book.
use crate::tables::Table;
use book::{Draft, Refusal};

/// A task that is put at a place.
#[derive(Clone, Copy)]
pub struct Entering {
    pub place: u8,
    pub period: u16,
    pub phase: u16,
    pub deadline: u8,
    pub table: Table,
}

/// A call that edits a book.
#[derive(Clone, Copy)]
pub enum Edit {
    Enter(Entering),
    Withdraw(u8),
    Opening(Table),
    Rounds(u8),
}

/// Edits the draft.
pub(crate) fn edit_draft(draft: &mut Draft, edit: &Edit) -> Result<(), Refusal> {
    match edit {
        Edit::Enter(task) => draft.enter(
            task.place,
            task.period,
            task.phase,
            task.deadline,
            task.table.as_slice(),
        ),
        Edit::Withdraw(place) => draft.withdraw(*place),
        Edit::Opening(table) => draft.opening(table.as_slice()),
        Edit::Rounds(rounds) => draft.rounds(*rounds),
    }
}
