//! The simulator's side: the same edits and the same questions.
use crate::asks::Ask;
use crate::edits::Edit;
use crate::tables::Table;
use analysis::{Pair, ShortList};
use simulator::{SimAsk, SimBook, SimKind, SimLateness, SimPair, SimRefusal};

// Stays: no `From`, since neither type is of this crate.
/// The pair as one of the simulator.
fn sim_pair(pair: &Pair) -> SimPair {
    SimPair {
        time: pair.time.into(),
        weight: pair.weight.into(),
    }
}

/// The pairs of the table as pairs of the simulator.
fn sim_pairs(table: &Table) -> ShortList<SimPair, 17> {
    let mut pairs = ShortList::new(SimPair { time: 0, weight: 0 });
    for pair in table.as_slice() {
        let _ = pairs.push(sim_pair(pair));
    }
    pairs
}

/// Edits the simulator's book.
pub(crate) fn edit_sim(book: &mut SimBook, edit: &Edit) -> Result<(), SimRefusal> {
    match edit {
        Edit::Enter(task) => book.enter(
            task.place.into(),
            task.period.into(),
            task.phase.into(),
            task.deadline.into(),
            sim_pairs(&task.table).as_slice(),
        ),
        Edit::Withdraw(place) => book.withdraw((*place).into()),
        Edit::Opening(table) => book.opening(sim_pairs(table).as_slice()),
        Edit::Rounds(rounds) => book.rounds((*rounds).into()),
    }
}

/// The exact answer of the simulator.
pub(crate) fn sim_exact(
    book: &SimBook,
    kind: SimKind,
    ask: &Ask,
) -> Result<[u128; 257], SimRefusal> {
    let mut cells = [7u128; 257];
    let len = ask.cells();
    book.response(kind, &SimAsk::from(*ask), &mut cells[..len])?;
    Ok(cells)
}

// Stays: this and `sim_task` differ in the question and its answer's type; one function would take the question as a closure, no plainer.
/// The rounded late weight of the simulator; short sheets are refused.
pub(crate) fn sim_rounded(book: &SimBook, ask: &Ask) -> Result<u128, SimRefusal> {
    if ask.short {
        return Err(SimRefusal::Cells);
    }
    book.rounded(&SimAsk::from(*ask))
}

/// The lateness of a task's round by the simulator; short sheets are refused.
pub(crate) fn sim_task(book: &SimBook, ask: &Ask) -> Result<SimLateness, SimRefusal> {
    if ask.short {
        return Err(SimRefusal::Cells);
    }
    book.task(&SimAsk::from(*ask))
}
